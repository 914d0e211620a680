//! What every other crate stands on: texts, bytes, exact numbers and the one error of memory.
#![tactic(auto)]

mod bytes;
mod decimal;
mod memory;
mod number;
mod text;

pub use bytes::Bytes;
pub use decimal::{NumFault, are_digits, are_some_digits, parse_decimal, split_sign};
pub use memory::NoMemory;
pub use number::{Fixed, Sample, gain, mix, pcm16, to_sample};
pub use sqlite_items::Items;
pub use text::{Text, TextFault};
