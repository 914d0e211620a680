//! The events of an atom input: those of several lists, merged into one finished sequence.
#![tactic(auto)]

mod merging;

pub use merging::{begin_sequence, put_merged};
