//! Tests of the layer beneath all others: texts, bytes, exact numbers, the outside and hashes.
#![tactic(auto)]

#[cfg(test)]
mod tests;
