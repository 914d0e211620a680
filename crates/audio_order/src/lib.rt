//! The order of work of audio, judged entry by entry: what it may do next, kept as what it is doing now.
#![tactic(auto)]

mod audio;
mod audio_stage;
mod audio_tracker;
mod fronts;

pub use audio_stage::{AudioStage, AudioStep, RunStage, Turn};
pub use audio_tracker::AudioTracker;
pub use fronts::Place;
