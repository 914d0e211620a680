use graph_order::GraphFault;
use lv_base::{Items, NoMemory, Text};
use plugin_decl::DeclFault;
use session_load::LoadFault;
use session_script::ScriptFault;
use std::alloc::AllocError;

/// Why a session can't be loaded: the first fault in the order of work. Want of memory is `Load(NoMemory)`, wherever it comes, and no
/// other variant holds it.
#[derive(Drop)]
pub enum SetupFault {
    /// The session file or a bundle's file can't be read, or the latter is no Turtle document.
    Load(LoadFault),
    /// The session file says no session.
    Script(ScriptFault),
    /// The plug-in of an instance isn't declared, or its declaration breaks a rule.
    Undeclared {
        uri: Text,
        fault: DeclFault,
    },
    /// There is no plan. Of a cycle these are the names of its instances, in its order; of a line there are none.
    Graph {
        fault: GraphFault,
        names: Items<Text>,
    },
}

impl From<LoadFault> for SetupFault {
    ghost use Rattle.std.specs.Prelude.{◌≡◌};
    ghost use Rattle.session_setup.specs.declared.fault.SetupFault.TheVariants.{Load};

    ghost from_gives = { λ fault made. made ≡ Load fault };

    fn from(fault: LoadFault) -> Self {
        SetupFault::Load(fault)
    }
}

impl From<NoMemory> for SetupFault {
    ghost use Rattle.std.specs.Prelude.{◌≡◌};
    ghost use Rattle.session_load.specs.declared.fault.LoadFault.TheVariants as causes;
    ghost use Rattle.session_setup.specs.declared.fault.SetupFault.TheVariants.{Load};

    ghost from_gives = { λ _ made. made ≡ Load causes.NoMemory };

    fn from(_: NoMemory) -> Self {
        SetupFault::Load(LoadFault::NoMemory)
    }
}

impl From<AllocError> for SetupFault {
    ghost use Rattle.std.specs.Prelude.{◌≡◌};
    ghost use Rattle.session_load.specs.declared.fault.LoadFault.TheVariants as causes;
    ghost use Rattle.session_setup.specs.declared.fault.SetupFault.TheVariants.{Load};

    ghost from_gives = { λ _ made. made ≡ Load causes.NoMemory };

    fn from(_: AllocError) -> Self {
        SetupFault::Load(LoadFault::NoMemory)
    }
}

impl From<ScriptFault> for SetupFault {
    ghost use Rattle.std.specs.Prelude.{◌≡◌};
    ghost use Rattle.session_setup.specs.Faults.{script_cause};

    ghost from_gives = { λ fault made. made ≡ script_cause fault };

    fn from(fault: ScriptFault) -> Self {
        match fault {
            ScriptFault::NoMemory => SetupFault::Load(LoadFault::NoMemory),
            fault => SetupFault::Script(fault),
        }
    }
}
