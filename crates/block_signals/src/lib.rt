//! The signals of a block as a host keeps them: what outputs gave in this block and in the one before, and what each run is given of it.
#![tactic(auto)]

mod channels;
mod events;
mod inlet;
mod inlets;
mod laws;
mod messages;
mod mixing;
mod outlet;
mod outlets;
mod source;

pub use channels::Channels;
pub use inlet::Inlet;
pub use inlets::Inlets;
pub use laws::{
    action_is_taken, block_begins, board_begins_blank, board_gives_block, board_gives_inputs,
    filled_is_ready, nothing_else_counts, nothing_is_changed, parts_stay, run_ends, run_is_shown,
};
pub use messages::Messages;
pub use outlet::Outlet;
pub use outlets::Outlets;
