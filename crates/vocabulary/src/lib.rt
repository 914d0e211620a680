//! The IRIs of RDF's vocabularies, of LV2's and of this host's own.
#![tactic(auto)]

mod word;

pub use word::Word;
