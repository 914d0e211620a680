//! Tests of the layer of texts: IRIs, tokens and what they stand for, triples and their listing.
#![tactic(auto)]

#[cfg(test)]
mod tests;
