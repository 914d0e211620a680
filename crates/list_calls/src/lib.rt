//! Calls on instances where one thread does all the work: attempts go to lists of bodies that wait, and all entries to one log.
#![tactic(auto)]

mod attempting;
mod caller;
mod plain;

pub use attempting::{restore_safe, run, work};
pub use caller::Caller;
pub use plain::{activate, cleanup, deactivate, end_run, make, respond, restore, save};
