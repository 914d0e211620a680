//! Messages of LV2's patch extension: patch:Get, patch:Set and patch:Put, read in any order of their properties and written in one.
#![tactic(auto)]

mod found;
mod laws;
mod message;
mod reader;
mod requests;
mod slot;
mod value;
mod words;
mod writer;

pub use laws::{any_order, written_is_read};
pub use message::{Message, PatchFault};
pub use reader::read_message;
pub use requests::Requests;
pub use value::Value;
pub use writer::{write_get, write_put, write_set};
