//! The plug-ins of a store, what is declared of them, and the first rule that they break, as text.
#![tactic(auto)]

mod listing;
mod rule;
mod uris;

pub use listing::{push_count, push_plugin};
pub use rule::push_rule;
pub use uris::plugins;
