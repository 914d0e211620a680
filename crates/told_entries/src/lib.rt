//! Entries outside of calls in a record that stands: each is judged, and it changes what is known in one way.
#![tactic(auto)]

mod notice;
mod plain;
mod take;

pub use notice::mark_notice;
pub use plain::mark_plain;
pub use take::mark_take;
