//! The instances of a run on one thread, each whole at its place: what they show of the parts that are known.
#![tactic(auto)]

mod laws;
mod parts;
mod place;

pub use laws::calls_change_one;
pub use parts::Parts;
pub use place::Place;
