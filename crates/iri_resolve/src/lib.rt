//! Components of IRI references, and their resolution against a base, as RFC 3986 has them.
#![tactic(auto)]

mod dots;
mod excluded;
mod iri;
mod parts;
mod target;

pub use excluded::{bad_char, is_excluded};
pub use iri::is_iri;
pub use parts::{Parts, has_scheme, split};
pub use target::{IriFault, resolve};
