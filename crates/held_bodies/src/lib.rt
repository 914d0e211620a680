//! The bodies that wait on the rings of a run on one thread.
#![tactic(auto)]

mod bodies;
mod laws;

pub use bodies::{Bodies, InstBodies};
pub use laws::bodies_change;
