//! What a Turtle 1.1 document means: in `specs/` the triples of a document's parse tree, and which documents there are. The types are
//! those of a reader's memory between two tokens.
#![tactic(auto)]

mod expected;
mod laws;

pub use expected::{Chain, Expected, Hole};
pub use laws::{keeps_few_numbers, keeps_rows, one_outcome, some_outcome, uses_its_numbers};
