//! What a run tells: the patch messages among the events at its reply port, as they are sent to control.
#![tactic(auto)]

mod answer;
mod notices;

pub use notices::{MOST_NOTICES, Notices, tell};
