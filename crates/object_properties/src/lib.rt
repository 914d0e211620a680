//! The properties of an object and the numbers in its bytes, read as they stand: whatever the bytes are, what is read is what
//! `session_play` says of them.
#![tactic(auto)]

mod place;
mod properties;
mod property;

pub use place::{after, i32_at, i64_at, u32_at};
pub use properties::Properties;
pub use property::Property;
