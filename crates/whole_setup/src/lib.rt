//! All that it takes to play a session, in one call: its script and its bundles, a declaration for each instance, the order in which
//! the instances run, and the states that its actions restore.
#![tactic(auto)]

mod fault;
mod laws;
mod loading;

pub use fault::WholeFault;
pub use laws::{one_whole, some_whole};
pub use loading::{load, load_bytes};
