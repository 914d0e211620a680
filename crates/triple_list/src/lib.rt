//! Triples as lines of text.
#![tactic(auto)]

mod escape;
mod listing;
mod term;

pub use listing::push_listing;
pub use term::push_term;
