//! Tests of the stock codes: their declarations, and what they play.
#![tactic(auto)]

#[cfg(test)]
mod tests;
