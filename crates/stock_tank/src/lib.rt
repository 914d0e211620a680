//! The stock code tank: a level that patch messages set and ask for, and that a state keeps.
#![tactic(auto)]

mod answer;
mod ask;
mod back;
mod front;
mod job;
mod requests;
mod restoring;
mod sound;

pub use back::TankBack;
pub use front::TankFront;
pub use restoring::restore_tank;
