//! Tests of patch messages that actions send and of what runs tell, over what the crates export.
#![tactic(auto)]

#[cfg(test)]
mod tests;
