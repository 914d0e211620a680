//! Instances in typed states, and each call on them between its two entries in the step record. No other crate calls a plug-in.
#![tactic(auto)]

mod back;
mod front;
mod made;
mod marking;
mod message;
mod restoring;

pub use back::BackOf;
pub use front::FrontOf;
pub use made::{Made, deactivate, make};
pub use message::Msg;
pub use restoring::restore;
