//! The order of work of a record, judged entry by entry: what each actor may do next, in constant time and little memory.
#![tactic(auto)]

mod queue;
mod queues;
mod tracker;

pub use queue::Queue;
pub use queues::Queues;
pub use record_terms::Message;
pub use tracker::Tracker;
