//! Tests of what a plug-in stores, of state files, and of who holds what while a state is restored.
#![tactic(auto)]

#[cfg(test)]
mod tests;
