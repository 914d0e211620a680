//! The level that the stock codes with states keep, and keep itself, which adds a value to it.
#![tactic(auto)]

mod fill;
mod keep;
mod level;

pub use keep::{KeepBack, KeepFront, restore_keep};
pub use level::{UNKNOWN, level_in, save, stored};
