ghost use Rattle.std.specs.Prelude.{◌≡◌, ◌++◌, List, ℕ, IsTrue, IfOk};
ghost use Rattle.std.specs.Option.{option_copied};
ghost use Rattle.plug_api.specs.Meaning.{CodesMeaning, IsMade};
ghost use Rattle.plug_api.specs.Running.{FitsSame};

use crate::{Back, Front, MakeFault};
use lv_base::Text;
use plugin_decl::{Decl, Options};
use state_store::Props;
use std::alloc::Global;
use urid_map::Urids;

/// The codes that a host can make instances of.
pub trait Codes {
    type Front: Front + Send;

    type Back: Back + Send;

    /// What the calls mean.
    ghost meaning: { Self → CodesMeaning Self.Front Self.Back };

    /// The declaration that comes with the code of a URI, as a Turtle document, if there is one.
    fn text(&self, uri: &Text) -> Option<&[u8]>
        ensures { option_copied result ≡ (meaning self.now).text uri.now };

    /// A new instance of the code that the declaration's URI names: its front and its back.
    fn make(
        &self,
        alloc: Global,
        decl: &Decl,
        rate: u32,
        options: &Options,
        urids: &mut Urids,
    ) -> Result<(Self::Front, Self::Back), MakeFault>
        ensures made { IsMade ((meaning self.now).make decl.now rate options.now urids.old) result urids.new }
        ensures fits { IfOk result (λ parts. IsTrue (Self.Front.meaning.fits parts.0 decl.now.ports)) }
        // URIs keep their numbers, also where it refuses.
        ensures urids { (more : List (List ℕ)) × (urids.new ≡ urids.old ++ more) };

    /// Gives both parts of an instance their state back. The answer is a status: 0 where that was done.
    fn restore(&self, front: &mut Self::Front, back: &mut Self::Back, from: &Props) -> u8
        ensures restored { (front.new, back.new, result) ≡ (meaning self.now).restore front.old back.old from.now }
        ensures fits { FitsSame Self.Front.meaning.fits front.old front.new };
}
