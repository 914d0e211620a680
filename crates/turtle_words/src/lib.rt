//! Texts that are written token by token, with white space after each: they fall into the tokens that were written.
#![tactic(auto)]

mod laws;

pub use laws::{falls_into_words, iris_are_tokens, strings_are_tokens};
