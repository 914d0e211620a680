//! What whoever judges or makes a record reads of its session and of its entries, and the messages that entries are about.
#![tactic(auto)]

mod entry;
mod message;
mod shape;

pub use entry::{is_by, is_kind, is_on, is_same};
pub use message::Message;
pub use shape::{replies, sender, worker_of, works};
