//! What a lawful record is: in `specs/` the order of work of each actor, the rules of a record, and which of them is broken first. The
//! types here say what these rules need to know of a session. No code of a run stands here.
#![tactic(auto)]

mod laws;
mod shape;

pub use laws::{
    keeps_threading_classes, one_judgement, parts_are_tokens, pieces_compose, prefixes_keep_rules,
    some_judgement, takes_come_in_turn, together_in_order, worked_record,
};
pub use shape::{ActionKind, Broken, Shape, ShapeAction, ShapeInst};
