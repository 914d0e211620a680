//! What a run gives, as it goes on: its sound, the states that it saves, how restores went, and the lines on notices.
#![tactic(auto)]

mod outcome;

pub use outcome::Outcome;
