ghost use Rattle.session_play.specs.Laws.{HasOnePlay, HasSomePlay, PlaysGoOn, HasSomeVerdict, HasOneViolation, LawfulHasNone, VerdictIsLawful, VerdictIsFirst, IsLawfulOrBroken, IsBrokenOnce, IsLawfulOnly, IsLawfulBesides, BeginningsKeepRules};
ghost use Rattle.session_play.specs.SignalLaws.{DelayIsABlock};
ghost use Rattle.session_play.specs.ValueLaws.{AttemptsAreAsked, NoticesAreMade, EndsByAnswers};

/// The values of a record are one, whatever the parts of its instances are.
pub fn one_play<F, B>()
    ensures { HasOnePlay F B }
{}

/// Each record has values: those of its play.
pub fn some_play<F, B>()
    ensures { HasSomePlay F B }
{}

/// The play of a record goes on from that of its first entries.
pub fn plays_go_on<F, B>()
    ensures { PlaysGoOn F B }
{}

/// However records are judged line by line, each is lawful or has a first violation; the verdict says which.
pub fn some_verdict<S>()
    ensures some { HasSomeVerdict S }
    ensures lawful { VerdictIsLawful S }
    ensures first { VerdictIsFirst S }
{}

/// The first violation of a record is one, and a lawful record has none.
pub fn one_verdict<S>()
    ensures one { HasOneViolation S }
    ensures none { LawfulHasNone S }
{}

/// So it is with values: each record is lawful, or has exactly one first violation.
pub fn judged_with_values<F, B>()
    ensures some { IsLawfulOrBroken F B }
    ensures one { IsBrokenOnce F B }
    ensures none { IsLawfulOnly F B }
{}

/// A record that is lawful with its values is lawful but for them.
pub fn lawful_besides<F, B>()
    ensures { IsLawfulBesides F B }
{}

/// What begins a record that keeps the rules keeps them, however records are judged.
pub fn beginnings_keep_rules<S>()
    ensures { BeginningsKeepRules S }
{}

/// Over a cable with a delay comes in a block what came over it without one before the block began: in the first block that is nothing.
pub fn a_delay_is_a_block<F, B>()
    ensures { DelayIsABlock F B }
{}

/// An attempt that keeps the rule on values is one that its call asks for, and a notice one that the run made and that wasn't told yet; each
/// is as long as the record says.
pub fn values_are_made<F, B>()
    ensures attempts { AttemptsAreAsked F B }
    ensures notices { NoticesAreMade F B }
{}

/// A call that is open ends with what it gives under the answers that the record tells of: 0 for a send, 2 for a refusal, and 1 without end
/// after them.
pub fn calls_end_by_answers<F, B>()
    ensures { EndsByAnswers F B }
{}
