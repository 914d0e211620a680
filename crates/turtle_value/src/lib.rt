//! What the texts of Turtle's tokens stand for: W3C Turtle 1.1, sections 6.3 and 6.4.
#![tactic(auto)]

mod name;
mod quoted;
mod unescape;

pub use name::{expand, prefix_text, tag_text};
pub use quoted::{Quotes, plain_reference, reference_text, string_text};
