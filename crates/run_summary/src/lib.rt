//! What a whole run counts, entry by entry, and its summary as text.
#![tactic(auto)]

mod counter;
mod laws;
mod report;
mod tally;
mod text;

pub use counter::InstTally;
pub use laws::{failures_are_counted, parts_tell_play};
pub use report::Report;
pub use tally::Tally;
pub use text::write_summary;
