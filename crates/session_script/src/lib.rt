//! The session script: what a session is, and how it is read.
#![tactic(auto)]

mod draft;
mod fault;
mod keyword;
mod later;
mod limits;
mod numbers;
mod reader;
mod roster;
mod rules;
mod session;
mod sorts;
mod statement;
mod words;

pub use fault::{Limit, ScriptFault, ScriptRule};
pub use later::first_later;
pub use reader::{one_answer, read, some_answer};
pub use session::{Action, CableLine, Deed, Inst, OutLine, Session, SetLine};
