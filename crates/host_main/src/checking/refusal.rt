ghost use Rattle.std.specs.Prelude.{◌≡◌};
ghost use Rattle.session_load.specs.declared.fault.LoadFault.TheVariants.{NoMemory as Want};
ghost use Rattle.host_main.specs.CheckStatus.{check_status};
ghost use Rattle.host_main.specs.declared.checking.refusal.CheckRefusal.TheVariants.{Load};

use lv_base::{Bytes, NoMemory, Text};
use session_load::LoadFault;
use turtle_read::TurtleFault;

/// Why a bundle isn't listed.
#[derive(Debug, Drop)]
pub enum CheckRefusal {
    /// The bundle can't be loaded, or memory was refused.
    Load(LoadFault),
    /// The declaration of this plug-in breaks a rule: its URI, and the rule's text.
    Undeclared { uri: Text, rule: Bytes },
    /// The listing couldn't be written.
    WriteFailed,
}

impl CheckRefusal {
    /// The status that the program ends with.
    pub fn status(&self) -> u8
        ensures { result ≡ check_status self.now }
    {
        match self {
            CheckRefusal::Load(LoadFault::Missing(_)) => 2,
            CheckRefusal::Load(LoadFault::ReadFailed(_)) => 3,
            CheckRefusal::WriteFailed => 4,
            CheckRefusal::Load(
                LoadFault::Turtle {
                    fault: TurtleFault::NoMemory,
                    ..
                },
            ) => 14,
            CheckRefusal::Load(LoadFault::Turtle { .. }) => 5,
            CheckRefusal::Undeclared { .. } => 6,
            CheckRefusal::Load(LoadFault::TooLong(_)) => 9,
            CheckRefusal::Load(LoadFault::NoMemory) => 14,
        }
    }
}

impl From<LoadFault> for CheckRefusal {
    ghost from_gives = { λ fault refusal. refusal ≡ Load fault };

    fn from(fault: LoadFault) -> Self {
        CheckRefusal::Load(fault)
    }
}

impl From<NoMemory> for CheckRefusal {
    ghost from_gives = { λ _ refusal. refusal ≡ Load Want };

    fn from(_: NoMemory) -> Self {
        CheckRefusal::Load(LoadFault::NoMemory)
    }
}
