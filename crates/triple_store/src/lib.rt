//! The triples of an RDF graph, each once, in the order in which they were added.
#![tactic(auto)]

mod candidates;
mod compared;
mod fault;
mod late;
mod matching;
mod store;
mod subjects;
mod term;

pub use fault::{MOST_ROWS, StoreFault};
pub use matching::Matching;
pub use store::Store;
pub use term::{Term, Triple};
