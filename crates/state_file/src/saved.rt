use lv_base::Text;
use state_store::Props;

/// A state that was saved.
#[derive(Drop)]
pub struct Saved {
    /// The name of the instance.
    pub name: Text,
    /// The URI of its plug-in.
    pub uri: Text,
    pub props: Props,
}
