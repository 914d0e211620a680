//! Tests of loading sessions, over vaults in memory and the stock codes.
#![tactic(auto)]

#[cfg(test)]
mod tests;
