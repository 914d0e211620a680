/// What the parts of a container are.
#[derive(Clone, Copy)]
pub enum Holds {
    /// Properties: keys and atoms.
    Properties,
    /// Events: times and atoms.
    Events,
}

/// A container that is open: what it holds, and where its header begins.
#[derive(Clone, Copy)]
pub struct Level {
    pub holds: Holds,
    pub at: usize,
}
