//! Tests of whole commands through the top call: every file and every line byte for byte.
#![tactic(auto)]

#[cfg(test)]
mod tests;
