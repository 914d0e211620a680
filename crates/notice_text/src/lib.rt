//! Notices as text: what an instance answered, as the summary has it.
#![tactic(auto)]

mod message;
mod value;

pub use message::push_notice;
