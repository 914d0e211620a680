//! A judge of records: which rule an entry breaks first, from what is counted of the entries before it.
#![tactic(auto)]

mod counts;
mod laws;

pub use counts::Counts;
pub use laws::{blocks_end_in_turn, messages_name_what_is_there};
