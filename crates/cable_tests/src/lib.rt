//! Tests of the cable, over what it exports.
#![tactic(auto)]

#[cfg(test)]
mod tests;
