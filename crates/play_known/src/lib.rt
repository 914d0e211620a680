//! What is known after a play of a record, entry by entry and call by call: in `specs/` all that the next entries and the outcome depend on.
//! No code of a run stands here.
#![tactic(auto)]

mod laws;

pub use laws::{
    both_are_all, calls_are_known, known_goes_on, takes_stay_sent, values_are_told, values_go_on,
};
