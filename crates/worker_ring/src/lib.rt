//! Schedulers and responders: what answers the attempts of one call, and marks each in the step record.
#![tactic(auto)]

mod answered;
mod answers;
mod attempts;
mod keep;
mod list;
mod put;

pub use answers::{AnswerAttempts, AnswerRespond, AnswerSched};
pub use keep::Attempt;
pub use list::{ListAttempts, ListRespond, ListSched};
