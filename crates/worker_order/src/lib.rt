//! The order of work of a worker, judged entry by entry: what it may do next, kept as what it is doing now.
#![tactic(auto)]

mod backs;
mod locals;
mod worker;
mod worker_stage;
mod worker_tracker;

pub use worker_stage::{AfterWork, LocalCount, RestoreStage, WorkStage, WorkerStage, WorkerStep};
pub use worker_tracker::WorkerTracker;
