//! What `session_play` reads off the bytes of an atom port is what they spell: laws alone.
#![tactic(auto)]

mod laws;

pub use laws::{events_are_spelled, messages_are_spelled, properties_are_spelled};
