//! Tests of judging records, over what its crates export.
#![tactic(auto)]

#[cfg(test)]
mod tests;
