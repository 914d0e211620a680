//! What a plug-in's author writes against, and what each call means: ports that are lent, fronts that run, backs that work, the codes that
//! instances are made of.
#![tactic(auto)]

mod back;
mod block;
mod codes;
mod fault;
mod front;
mod ins;
mod outs;
mod ports;
mod roles;
mod scheduling;

pub use back::Back;
pub use block::Block;
pub use codes::Codes;
pub use fault::MakeFault;
pub use front::Front;
pub use ins::Ins;
pub use outs::Outs;
pub use ports::Ports;
pub use roles::{has_atom, has_audio, has_control};
pub use scheduling::{Respond, Sched};
