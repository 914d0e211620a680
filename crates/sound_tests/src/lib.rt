//! Tests of the kernels of sound, over what their crate exports.
#![tactic(auto)]

#[cfg(test)]
mod tests;
