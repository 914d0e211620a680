//! Tests of the order of work, over what its crates export.
#![tactic(auto)]

#[cfg(test)]
mod tests;
