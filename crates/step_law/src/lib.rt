//! What a run is told in: who acts, the calls and the rings, and the entries of the step record.
#![tactic(auto)]

mod actor;
mod call;
mod entry;
mod event;
mod ring;

pub use actor::Actor;
pub use call::Call;
pub use entry::{Entry, Kind};
pub use event::Event;
pub use ring::Ring;
