//! The stock codes of sound, of which each sample follows from the inputs and what the code gave before: a constant, an amplifier, a mixer
//! and an echo. None has a worker or a state.
#![tactic(auto)]

mod amplifier;
mod constant;
mod echo;
mod idle;
mod mixer;

pub use amplifier::Amplifier;
pub use constant::Constant;
pub use echo::Echo;
pub use idle::Idle;
pub use mixer::Mixer;
