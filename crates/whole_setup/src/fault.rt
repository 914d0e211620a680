use session_load::LoadFault;
use session_setup::SetupFault;
use session_states::StatesFault;

/// Why a session can't be loaded with its states: the first fault in the order of work. Want of memory is `Setup(Load(NoMemory))`,
/// wherever it comes, and no other value holds it.
#[derive(Drop)]
pub enum WholeFault {
    /// A fault of the session file, its bundles, its declarations or its graph.
    Setup(SetupFault),
    /// A fault of the state files.
    States(StatesFault),
}

impl From<SetupFault> for WholeFault {
    ghost use Rattle.std.specs.Prelude.{◌≡◌};
    ghost use Rattle.whole_setup.specs.declared.fault.WholeFault.TheVariants as whole;

    ghost from_gives = { λ fault made. made ≡ whole.Setup fault };

    fn from(fault: SetupFault) -> Self {
        WholeFault::Setup(fault)
    }
}

impl From<StatesFault> for WholeFault {
    ghost use Rattle.std.specs.Prelude.{◌≡◌};
    ghost use Rattle.whole_setup.specs.Whole.{states_cause};

    ghost from_gives = { λ fault made. made ≡ states_cause fault };

    fn from(fault: StatesFault) -> Self {
        match fault {
            StatesFault::Load(LoadFault::NoMemory) => {
                WholeFault::Setup(SetupFault::Load(LoadFault::NoMemory))
            }
            fault => WholeFault::States(fault),
        }
    }
}
