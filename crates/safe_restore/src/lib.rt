//! Who holds the parts of an instance while its state is restored, and the jobs that a thread-safe restore leaves behind.
#![tactic(auto)]

mod handover;
mod local_jobs;

pub use handover::{Asked, BothHeld, FrontHeld};
pub use local_jobs::LocalJobs;
