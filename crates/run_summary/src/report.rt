use lv_base::{Bytes, Fixed, Items};

/// What a run gave that its summary tells besides its counts.
#[derive(Drop)]
pub struct Report {
    /// Of each instance what its control outputs had after its last run, in order of its ports, and 0 before any run.
    pub values: Items<Items<Fixed>>,
    /// The lines of the notices, in the order in which control took them.
    pub notices: Bytes,
    /// Of each action the status of its restore, if it has one that ended.
    pub statuses: Items<Option<u8>>,
    /// How many states were saved.
    pub saves: usize,
}
