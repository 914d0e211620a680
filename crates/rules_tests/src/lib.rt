//! Tests of what a judge of records counts: a worked record, and copies of it in which a line is another.
#![tactic(auto)]

#[cfg(test)]
mod tests;
