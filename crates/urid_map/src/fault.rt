ghost use Rattle.std.specs.Prelude.{◌≡◌};
ghost use Rattle.urid_map.specs.declared.fault.UridFault.TheVariants.{NoMemory};

use lv_base::NoMemory;
use std::error::Error;
use std::fmt;

/// Why a URI got no number.
#[derive(Clone, Copy, Debug)]
pub enum UridFault {
    /// The URI is new, and there are `MOST_URIDS` numbers.
    Full,
    NoMemory,
}

impl fmt::Display for UridFault {
    fn fmt<W: fmt::Write>(&self, f: &mut fmt::Formatter<W>) -> fmt::Result {
        f.write_str(match self {
            UridFault::Full => "too many URIs",
            UridFault::NoMemory => "no memory",
        })
    }
}

impl Error for UridFault {}

impl From<NoMemory> for UridFault {
    ghost from_gives = { λ _ made. made ≡ NoMemory };

    fn from(_: NoMemory) -> Self {
        UridFault::NoMemory
    }
}
