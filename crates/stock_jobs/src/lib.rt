//! The stock codes with jobs: fetch, whose back sends numbers back, and burst, which attempts more jobs than a block may have.
#![tactic(auto)]

mod burst;
mod count;
mod fetch;
mod fill;
mod status;

pub use burst::{BurstBack, BurstFront};
pub use count::{Count, MOST_COUNT};
pub use fetch::{FetchBack, FetchFront};
