//! Tests of the crates of atoms, over what they export.
#![tactic(auto)]

#[cfg(test)]
mod tests;
