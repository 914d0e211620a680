ghost use Rattle.std.specs.Prelude.{◌≡◌, ◌≤◌, ◌<◌, length, IfSome, IfNone};

use arrayvec::ArrayVec;
use std::marker::Model;

/// A message's body: at most 256 bytes, without memory of its own. Contracts see the list of its bytes.
#[derive(Drop)]
pub struct Parcel {
    body: ArrayVec<u8, 256>,
}

impl Model for Parcel {
    ghost use Rattle.std.specs.Prelude.{List, ℕ};

    ghost Value = { List ℕ };

    ghost view = { λ parcel. parcel.body.items };
}

impl Default for Parcel {
    ghost use Rattle.std.specs.Prelude.{◌≡◌, []};

    ghost is_default = { λ parcel. parcel ≡ [] };

    fn default() -> Self {
        Parcel {
            body: ArrayVec::new(),
        }
    }
}

impl Parcel {
    /// A message with this body, unless it is too long.
    pub fn new(body: &[u8]) -> Option<Self>
        ensures some { IfSome result (λ parcel. parcel ≡ body.now) }
        ensures none { IfNone result (256 < length body.now) }
    {
        let mut parcel = ArrayVec::new();
        match parcel.try_extend_from_slice(body) {
            Ok(()) => Some(Parcel { body: parcel }),
            Err(_) => None,
        }
    }

    /// Its bytes.
    pub fn as_slice(&self) -> &[u8]
        ensures value { result.now ≡ self.now }
        ensures short { length self.now ≤ 256 }
    {
        self.body.as_slice()
    }
}
