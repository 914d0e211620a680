//! What a record means: in `specs/` the signals of each block, the values of a record's entries, and when a record is lawful with them.
//! No code of a run stands here.
#![tactic(auto)]

mod laws;

pub use laws::{
    a_delay_is_a_block, beginnings_keep_rules, calls_end_by_answers, judged_with_values,
    lawful_besides, one_play, one_verdict, plays_go_on, some_play, some_verdict, values_are_made,
};
