//! The numbers of URIs: the URID extension of LV2.
#![tactic(auto)]

mod fault;
mod iri;
mod table;
mod urids;

pub use fault::UridFault;
pub use iri::is_iri_text;
pub use urids::{MOST_URIDS, Urids};
