//! Reading back what was written gives the same: the text of a state file, by the meaning of Turtle, says the states that were written.
#![tactic(auto)]

mod laws;

pub use laws::{names_are_plain, read_is_written, written_is_read};
