use graph_order::{Plan, Setup};
use lv_base::Items;
use plugin_decl::Decl;
use session_script::Session;
use state_store::Props;

/// What a session file and its bundles say: all of a [`Setup`] but the states of its restores, whose files are read after them.
#[derive(Drop)]
pub struct Loaded {
    pub session: Session,
    /// The declaration of each instance.
    pub decls: Items<Decl>,
    /// In which order the instances run within a block.
    pub plan: Plan,
}

impl Loaded {
    ghost use Rattle.std.specs.Prelude.{◌≡◌};
    ghost use Rattle.session_setup.specs.Loaded.{setup_of};

    /// The setup, with the properties of each restore, in order of the actions. There are none where the session restores nothing.
    pub fn with_states(self, states: Items<Props>) -> Setup
        ensures { result ≡ setup_of self states }
    {
        let Loaded {
            session,
            decls,
            plan,
        } = self;
        Setup {
            session,
            decls,
            plan,
            states,
        }
    }
}
