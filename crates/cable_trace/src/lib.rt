//! What the actors of a run did on the rings between them, as plain data, and the facts about a ring that each step keeps.
//! No thread stands here.
#![tactic(auto)]

mod beat_laws;
mod laws;
mod trace;

pub use beat_laws::{
    beat_begins, beat_is_above, leaves_beat, merged_keeps_beat, reader_goes_on, reader_loads,
    writer_goes_on, writer_stores,
};
pub use laws::{
    above_all, draws_in_order, leaves_in_order, leaves_others, log_agrees, merged_keeps_ring,
    ring_begins, sender_goes_on, sender_is_refused, sender_sends, taker_goes_on, taker_looks,
    taker_takes,
};
pub use trace::{Action, Event, Pending, Trace};
