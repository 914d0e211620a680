//! What a run on one thread holds besides its instances.
#![tactic(auto)]

mod desk;

pub use desk::Desk;
