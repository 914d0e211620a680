//! A record is judged: it is lawful but for its values, or its first violation is told. One pass over its entries; what is kept of those
//! before is kept by actors, instances and rings.
#![tactic(auto)]

mod judge;
mod verdict;

pub use judge::Judge;
pub use verdict::{Illegal, legal};
