//! What a judge of records counts as it goes on from entry to entry: of each ring, each actor and each instance what the rules ask, so
//! that no rule searches what stands before.
#![tactic(auto)]

mod calls;
mod form;
mod looks;
mod owners;
mod rings;
mod waits;

pub use calls::{InstCalls, OpenCall, OpenCalls};
pub use form::has_form;
pub use looks::Looks;
pub use owners::{Owner, Owners, Part, PartOwners};
pub use rings::{RingCount, RingCounts};
pub use waits::{Activity, Waits};
