//! The bytes of the patch messages that a session's actions send.
#![tactic(auto)]

mod writer;

pub use writer::{MOST_BYTES, MessageWriter};
