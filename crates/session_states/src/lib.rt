//! The state files of a session: the states that its actions restore.
#![tactic(auto)]

mod fault;
mod one_file;
mod paths;
mod reading;
mod restore;
mod wanted;

pub use fault::{Rule, StatesFault};
pub use one_file::MOST_STATE_FILE_BYTES;
pub use reading::{one_answer, some_answer, states};
