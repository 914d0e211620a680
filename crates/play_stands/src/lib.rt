//! Where a record stands that is being made: what is known after it, step by step. Definitions and laws alone.
#![tactic(auto)]

ghost use Rattle.play_stands.specs.Laws.{NothingStands, TakeStands, NoticeStands, PlainStands, CallStands, StandingIsLawful};

/// A record without entries stands.
pub fn nothing_stands<F, B>()
    ensures { NothingStands F B }
{}

/// A record that stands goes on with an entry outside of calls that breaks no rule.
pub fn entries_stand<F, B>()
    ensures takes { TakeStands F B }
    ensures notices { NoticeStands F B }
    ensures plain { PlainStands F B }
{}

/// It goes on with a whole call on an instance.
pub fn calls_stand<F, B>()
    ensures { CallStands F B }
{}

/// A record that stands is lawful, with its values, if it is lawful but for them.
pub fn standing_is_lawful<F, B>()
    ensures { StandingIsLawful F B }
{}
