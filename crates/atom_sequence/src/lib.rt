//! The events of sequences of LV2, merged in order of time.
#![tactic(auto)]

mod cursor;
mod events;
mod laws;
mod merger;

pub use atom_core::{Events, events_of};
pub use cursor::put_event;
pub use events::merge_lists;
pub use laws::{one_list, stable_order};
pub use merger::{MOST_VIEWS, Merger};
