//! Tests of the graph: the lines that are judged against declarations, plans and cycles.
#![tactic(auto)]

#[cfg(test)]
mod tests;
