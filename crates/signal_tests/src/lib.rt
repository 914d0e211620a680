//! Tests of the signals of a block, over what their crate exports.
#![tactic(auto)]

#[cfg(test)]
mod tests;
