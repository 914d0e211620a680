ghost use Rattle.std.specs.Prelude.{◌≡◌};
ghost use Rattle.plug_api.specs.declared.fault.MakeFault.TheVariants.{NoMemory};

use lv_base::NoMemory;

/// Why no instance was made.
#[derive(Clone, Copy, Debug, PartialEq, Eq)]
pub enum MakeFault {
    /// There is no code for this URI.
    NoCode,
    /// The code refused, with a number above 0.
    Refused(u32),
    NoMemory,
}

impl From<NoMemory> for MakeFault {
    ghost from_gives = { λ _ made. made ≡ NoMemory };

    fn from(_: NoMemory) -> Self {
        MakeFault::NoMemory
    }
}
