//! The graph of a session: whether its lines fit the declarations of its instances, and in which order these run within a block.
#![tactic(auto)]

mod cycle;
mod fault;
mod graph;
mod lines;
mod plan;
mod ports;
mod setup;
mod wiring;

pub use fault::GraphFault;
pub use graph::{one_answer, order, some_answer};
pub use plan::Plan;
pub use setup::Setup;
