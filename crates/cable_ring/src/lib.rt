//! All rings of a run, over one table of atomic words and cells: what each actor did there is one trace, and the rule of the table says how
//! the words, the cells and all traces fit together at any moment, whatever the order in which threads take their steps.
#![tactic(auto)]

mod actor;
mod cable;
mod calls;
mod close;
mod drawer;
mod layout;
mod pass;
mod plays;
mod seat;
mod start;
mod view;

pub use cable::Cable;
pub use calls::Full;
pub use close::Left;
pub use layout::{Layout, Wiring};
pub use pass::{Count, Pass};
pub use seat::{Seat, beat, draw, left, look, look_beat, rise, send, take};
pub use view::{Acting, Plan, RingSpec, View};
