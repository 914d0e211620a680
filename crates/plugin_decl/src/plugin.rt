use triple_store::{Store, Term};

/// A plug-in that a store may declare, and the length of the blocks that it is to run.
#[derive(Clone, Copy)]
pub(crate) struct Plugin<'a> {
    pub(crate) store: &'a Store,
    /// Its IRI.
    pub(crate) term: &'a Term,
    pub(crate) block: u32,
}
