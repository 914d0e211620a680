//! The numbers that this host reads are those that Turtle writes: W3C Turtle 1.1, section 6.5.
#![tactic(auto)]

mod numbers;

pub use numbers::numbers_agree;
