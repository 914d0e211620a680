//! The grammar of Turtle 1.1: its tokens here, and in `specs/` what each is and how a text falls into them.
#![tactic(auto)]

mod laws;
mod token;

pub use laws::{one_answer, one_reading, rising_spans, some_answer, some_reading, test_agrees};
pub use token::{Token, TokenKind};
