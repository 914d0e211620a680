use lv_base::{NoMemory, Text};
use session_load::LoadFault;
use std::fmt;
use thiserror::Error;

/// Why the states of a session can't be had. A path is that of the vault.
#[derive(Debug, Drop, Error)]
pub enum StatesFault {
    /// A file can't be read, has more than `MOST_STATE_FILE_BYTES` bytes, or is no Turtle document; or memory was refused.
    #[error("{0}")]
    Load(LoadFault),
    /// The states of a file, or the actions that restore them, break a rule.
    #[error("state {path}: {rule}")]
    Broken { path: Text, rule: Rule },
    /// A key or a type is new, and there are `MOST_URIDS` numbers.
    #[error("too many URIs")]
    UridFull,
}

/// The rules of a state file, in their order.
#[derive(Clone, Copy, Debug, PartialEq, Eq)]
pub enum Rule {
    /// A state has its name, its plug-in and its node, and a property its parts.
    Shape,
    /// Flags are 3 or 7.
    Flags,
    /// Bytes are in canonical base64.
    Bytes,
    /// A state has at most 256 properties and 65,536 bytes.
    Size,
    /// There is a state at the place that an action names.
    Count,
    /// That state is one of the instance's plug-in.
    Plugin,
}

impl fmt::Display for Rule {
    fn fmt<W: fmt::Write>(&self, f: &mut fmt::Formatter<W>) -> fmt::Result {
        f.write_str(match self {
            Rule::Shape => "shape",
            Rule::Flags => "flags",
            Rule::Bytes => "bytes",
            Rule::Size => "size",
            Rule::Count => "count",
            Rule::Plugin => "plugin",
        })
    }
}

impl From<LoadFault> for StatesFault {
    ghost use Rattle.std.specs.Prelude.{◌≡◌};
    ghost use Rattle.session_states.specs.declared.fault.StatesFault.TheVariants as faults;

    ghost from_gives = { λ fault made. made ≡ faults.Load fault };

    fn from(fault: LoadFault) -> Self {
        StatesFault::Load(fault)
    }
}

impl From<NoMemory> for StatesFault {
    ghost use Rattle.std.specs.Prelude.{◌≡◌};
    ghost use Rattle.session_load.specs.declared.fault.LoadFault.TheVariants as load;
    ghost use Rattle.session_states.specs.declared.fault.StatesFault.TheVariants as faults;

    ghost from_gives = { λ _ made. made ≡ faults.Load load.NoMemory };

    fn from(_: NoMemory) -> Self {
        StatesFault::Load(LoadFault::NoMemory)
    }
}
