//! Tests of what happens in a run: the step record and its text, ports that are lent, whole runs on one thread.
#![tactic(auto)]

#[cfg(test)]
mod tests;
