//! A log that judges its entries: each is taken only where it breaks no rule of records, so what is made of the log keeps the rules,
//! whoever proposes the entries.
#![tactic(auto)]

mod follower;
mod halt;
mod judged_log;
mod laws;

pub use follower::Follower;
pub use halt::Halt;
pub use judged_log::JudgedLog;
pub use laws::followed_is_lawful;
