ghost use Rattle.std.specs.Prelude.{◌≡◌};
ghost use Rattle.host_main.specs.Status.{status_of, refusal_of};
ghost use Rattle.host_main.specs.declared.refusal.Refusal.TheVariants.{NoMemory};

use lv_base::NoMemory as OutOfMemory;
use session_script::{Limit, ScriptFault, ScriptRule};

/// The status of a run whose work was done and whose every write succeeded.
pub const DONE: u8 = 0;

/// Why a run ends without its work done.
#[derive(Clone, Copy, Debug, PartialEq, Eq)]
pub enum Refusal {
    /// The words match no command.
    Usage,
    /// The session isn't there.
    Missing,
    /// The session couldn't be read.
    ReadFailed,
    /// Something that the run writes couldn't be written.
    WriteFailed(Target),
    /// The first line of the session that breaks a rule, counted from 1, and the rule.
    Script(u32, ScriptRule),
    /// The first limit that the session passes, and the number that passes it.
    Past(Limit, u64),
    /// The first line of the session that can't be played yet, counted from 1.
    Later(u32),
    /// The session is longer than its limit.
    TooLong,
    NoMemory,
}

/// What a run writes, in this order.
#[derive(Clone, Copy, Debug, PartialEq, Eq)]
pub enum Target {
    Record,
    Sound,
    State,
    Summary,
}

impl Refusal {
    /// The status that the program ends with.
    pub fn status(self) -> u8
        ensures { result ≡ status_of self }
    {
        match self {
            Refusal::Usage => 1,
            Refusal::Missing => 2,
            Refusal::ReadFailed => 3,
            Refusal::WriteFailed(_) => 4,
            Refusal::Script(..) | Refusal::Later(_) => 7,
            Refusal::Past(..) | Refusal::TooLong => 9,
            Refusal::NoMemory => 14,
        }
    }
}

impl From<OutOfMemory> for Refusal {
    ghost from_gives = { λ _ refusal. refusal ≡ NoMemory };

    fn from(_: OutOfMemory) -> Self {
        Refusal::NoMemory
    }
}

impl From<ScriptFault> for Refusal {
    ghost from_gives = { λ fault refusal. refusal ≡ refusal_of fault };

    fn from(fault: ScriptFault) -> Self {
        match fault {
            ScriptFault::Bad(line, rule) => Refusal::Script(line, rule),
            ScriptFault::Limit(which, number) => Refusal::Past(which, number),
            ScriptFault::NoMemory => Refusal::NoMemory,
        }
    }
}
