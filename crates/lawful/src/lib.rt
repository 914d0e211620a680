//! Laws that join what is known of the cable with the rules of a record: the list of all entries by ticket, which threads make, keeps the
//! rules on takes, on full rings, on sends and on looks.
#![tactic(auto)]

mod merged;

pub use merged::keeps_rings;
