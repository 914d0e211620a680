//! Tests of Turtle documents, over what `turtle_read` exports.
#![tactic(auto)]

#[cfg(test)]
mod tests;
