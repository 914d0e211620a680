//! Tests of the crates of plug-ins and of their calls, over what they export.
#![tactic(auto)]

#[cfg(test)]
mod tests;
