//! Atoms of LV2: values, and the bytes that spell them.
#![tactic(auto)]

mod content;
mod events;
mod fault;
mod form;
mod kind;
mod laws;
mod number;
mod outer;
mod part;
mod parts;
mod properties;
mod view;

pub use events::{Events, events_of};
pub use fault::AtomFault;
pub use laws::{one_answer, one_spelling, one_value};
pub use outer::check;
pub use parts::AtomParts;
pub use properties::AtomProperties;
pub use view::{AtomView, read};
