ghost use Rattle.std.specs.Prelude.{◌≡◌};
ghost use Rattle.state_file.specs.declared.fault.StateFault.TheVariants.{NoMemory, UridFull};
ghost use Rattle.state_file.specs.Rules.{fault_of};

use lv_base::NoMemory;
use std::error::Error;
use std::fmt;
use urid_map::UridFault;

/// Why the states of a file weren't read.
#[derive(Clone, Copy, Debug)]
pub enum StateFault {
    /// A state lacks its name, its plug-in or its node, or has several; or a property lacks its type, its flags or its bytes, or has
    /// several; or a key stands twice, or it or a type is no IRI in full.
    Shape,
    /// Flags aren't 3 or 7.
    Flags,
    /// Bytes aren't in canonical base64.
    Bytes,
    /// A state has more than `MOST_PROPERTIES` properties or more than `MOST_BYTES` bytes.
    Size,
    /// A key or a type is new, and there are `MOST_URIDS` numbers.
    UridFull,
    NoMemory,
}

impl fmt::Display for StateFault {
    fn fmt<W: fmt::Write>(&self, f: &mut fmt::Formatter<W>) -> fmt::Result {
        f.write_str(match self {
            StateFault::Shape => "shape",
            StateFault::Flags => "flags",
            StateFault::Bytes => "bytes",
            StateFault::Size => "size",
            StateFault::UridFull => "too many URIs",
            StateFault::NoMemory => "no memory",
        })
    }
}

impl Error for StateFault {}

impl From<NoMemory> for StateFault {
    ghost from_gives = { λ _ made. made ≡ NoMemory };

    fn from(_: NoMemory) -> Self {
        StateFault::NoMemory
    }
}

impl From<UridFault> for StateFault {
    ghost from_gives = { λ fault made. made ≡ fault_of fault };

    fn from(fault: UridFault) -> Self {
        match fault {
            UridFault::Full => StateFault::UridFull,
            UridFault::NoMemory => StateFault::NoMemory,
        }
    }
}
