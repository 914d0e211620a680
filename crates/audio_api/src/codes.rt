ghost use Rattle.std.specs.Prelude.{◌≡◌, List, ℕ, IfOk};
ghost use Rattle.audio_api.specs.Stock.{IsStockUri};

use crate::Front;
use lv_base::{NoMemory, Text};
use std::alloc::Global;

/// The codes that a host can make instances of.
pub trait Codes {
    type Front: Front + Send;

    /// The front that is made of the code with this URI.
    ghost make_of: { List ℕ → Self.Front };

    /// A new front of the code with this URI.
    fn make(&self, alloc: Global, uri: &Text) -> Result<Self::Front, NoMemory>
        requires { IsStockUri uri.now }
        ensures { IfOk result (λ front. front ≡ make_of uri.now) };

    ghost made_of: { (uri : List ℕ) → IsStockUri uri → Self.Front.uri_of (make_of uri) ≡ uri };
}
