use crate::plan::Plan;
use lv_base::Items;
use plugin_decl::Decl;
use session_script::Session;
use state_store::Props;

/// A session that is ready to be played.
#[derive(Drop)]
pub struct Setup {
    pub session: Session,
    /// The declaration of each instance.
    pub decls: Items<Decl>,
    /// In which order the instances run within a block.
    pub plan: Plan,
    /// The properties of each restore, in order of the actions.
    pub states: Items<Props>,
}
