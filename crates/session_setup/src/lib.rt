//! What a session takes to be played: its script and its bundles read, a declaration chosen for each instance, and the order in which
//! the instances run.
#![tactic(auto)]

mod bundles;
mod declaring;
mod fault;
mod laws;
mod loaded;
mod loading;
mod newest;
mod planning;

pub use fault::SetupFault;
pub use laws::{one_newest, one_setup, some_setup};
pub use loaded::Loaded;
pub use loading::{load, load_bytes};
