//! Whole calls on instances in a record that stands: each is made, its entries are judged, and it changes what is known in one way.
#![tactic(auto)]

mod attempting;
mod backs;
mod fronts;
mod judging;
mod unmade;
mod wholes;

pub use attempting::{restore_safe, run, work};
pub use backs::{restore, save};
pub use fronts::{activate, deactivate, end_run, respond};
pub use unmade::Unmade;
pub use wholes::{cleanup, make};
