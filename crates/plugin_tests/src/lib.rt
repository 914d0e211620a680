//! Tests of the layer of plug-in descriptions: URIDs, declarations and their lines.
#![tactic(auto)]

#[cfg(test)]
mod tests;
