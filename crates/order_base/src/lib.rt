//! What all judges of the order of work share: attempts to send, and the limits of a session that they rely on.
#![tactic(auto)]

mod attempt;

pub use attempt::{at_most, is_attempt};
