//! The triples of Turtle 1.1 documents.
#![tactic(auto)]

mod collection;
mod directive;
mod document;
mod environment;
mod fault;
mod fill;
mod holes;
mod kinds;
mod lexeme;
mod name;
mod object;
mod reader;
mod recent;
mod shared;
mod short_forms;
mod slot;
mod string;
mod token_fault;
mod verb;

pub use document::read;
pub use fault::TurtleFault;
