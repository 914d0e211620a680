//! The kernels of sound: whole signals of a block, of any length, added up exactly, clamped once, scaled, and put as PCM. None takes memory.
#![tactic(auto)]

mod gain;
mod laws;
mod pcm;
mod sum;

pub use gain::gain_into;
pub use laws::finished_is_mixed;
pub use pcm::to_pcm;
pub use sum::{add, clear, finish};
