//! Whole runs of a session on one thread: the record of what was done, the sound and a summary.
#![tactic(auto)]

mod calls;
mod count;
mod cycle;
mod desk;
mod mixer;
mod one_thread;
mod outcome;
mod pcm;
mod phases;
mod run;
mod state_text;
mod strip;
mod summary;
mod threading;

pub use one_thread::render;
pub use outcome::Outcome;
pub use state_text::STATE_TEXT;
pub use threading::keeps_threading_classes;
