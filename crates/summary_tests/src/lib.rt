//! Tests of the summary, over what its crate exports.
#![tactic(auto)]

#[cfg(test)]
mod tests;
