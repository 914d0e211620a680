//! Tests of the state files of sessions, over what its crates export.
#![tactic(auto)]

#[cfg(test)]
mod tests;
