//! State files: the states that were saved, as Turtle.
#![tactic(auto)]

mod fault;
mod objects;
mod order;
mod property;
mod reader;
mod rules;
mod saved;
mod states;
mod writer;

pub use fault::StateFault;
pub use reader::read;
pub use saved::Saved;
pub use writer::write;
