//! Atoms of LV2, written one after the other into a buffer of fixed room.
#![tactic(auto)]

mod forge;
mod laws;
mod level;
mod mark;
mod piece;
mod room;

pub use forge::Forge;
pub use laws::{back_is_before, container_is_atom, part_is_put};
pub use level::{Holds, Level};
pub use mark::Mark;
pub use room::NoRoom;
