/// Who makes a call, and where its attempts go.
#[derive(Clone, Copy)]
pub struct Caller {
    /// The number of the actor.
    pub actor: u32,
    /// The number of the ring of its attempts, and how many cells that has.
    pub ring: u32,
    pub cells: u32,
    /// Whether the instance declares a worker: without one no attempt is accepted.
    pub works: bool,
}
