//! Tests of the plan, over what its crates export.
#![tactic(auto)]

#[cfg(test)]
mod tests;
