use lv_base::Text;

/// A state that an action restores.
#[derive(Drop)]
pub struct Restore {
    /// The file of states, in the vault.
    pub path: Text,
    /// Which of its states, from 0.
    pub place: u32,
    /// The URI of the instance's plug-in.
    pub uri: Text,
}
