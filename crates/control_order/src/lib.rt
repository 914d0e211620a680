//! The order of work of control, judged entry by entry: what it may do next, kept as what it is doing now.
#![tactic(auto)]

mod control;
mod control_action;
mod control_closing;
mod control_stage;
mod control_tracker;
mod progress;

pub use control_stage::{
    ActionStage, ClosingStage, ControlStage, ControlStep, FinishStage, PlainStage, Round,
};
pub use control_tracker::ControlTracker;
