//! The value that bytes of LV2 atoms spell, as a function of the bytes.
#![tactic(auto)]

mod laws;

pub use laws::spelled_is_read;
