//! The outside: where files are read and written, where the summary goes, and where running threads may be held.
//! Nothing but the traits of this crate reaches it.
#![tactic(auto)]

mod answer;
mod counts;
mod directory;
mod gate;
mod memory_sink;
mod memory_vault;
mod output;
mod sink;
mod vault;

pub use answer::{Fetch, Put};
pub use counts::Counts;
pub use directory::DirVault;
pub use gate::{Gate, OpenGate, Point};
pub use memory_sink::MemSink;
pub use memory_vault::MemVault;
pub use output::OutSink;
pub use sink::Sink;
pub use vault::Vault;
