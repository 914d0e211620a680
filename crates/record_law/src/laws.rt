ghost use Rattle.record_law.specs.Case.{Gives};
ghost use Rattle.record_law.specs.Lawful.{IsLawful};
ghost use Rattle.record_law.specs.Worked.{session, steps, cases};
ghost use Rattle.record_law.specs.Threading.{NoneOverlapsItsClass, InstantiationIsAlone};
ghost use Rattle.record_law.specs.Tokens.{PartsAreTokens};
ghost use Rattle.record_law.specs.Fits.{TogetherInOrder, PiecesCompose, PieceHoldsBefore, PieceFits};
ghost use Rattle.record_law.specs.Laws.{HasSomeVerdict, HasOneViolation, LawfulHasNone, VerdictIsLawful, VerdictIsFirst, PrefixesKeepRules, RulesKeepClasses, TakesComeInTurn, RulesKeepTokens};

/// Each record is lawful, or has a first violation; the verdict says which.
pub fn some_judgement()
    ensures some { HasSomeVerdict }
    ensures lawful { VerdictIsLawful }
    ensures first { VerdictIsFirst }
{}

/// The first violation of a record is one, and a lawful record has none.
pub fn one_judgement()
    ensures one { HasOneViolation }
    ensures none { LawfulHasNone }
{}

/// What begins a record that keeps the rules keeps them.
pub fn prefixes_keep_rules()
    ensures { PrefixesKeepRules }
{}

/// A record that keeps the rules keeps LV2's threading classes, by which no call overlaps one of its class, nor an instantiation call any.
pub fn keeps_threading_classes()
    ensures kept { RulesKeepClasses }
    ensures apart { NoneOverlapsItsClass }
    ensures alone { InstantiationIsAlone }
{}

/// Pieces of what an actor does compose, hold whatever it has to do later, and go on from what it did.
pub fn pieces_compose()
    ensures compose { PiecesCompose }
    ensures before { PieceHoldsBefore }
    ensures fits { PieceFits }
{}

/// Where what each actor did by itself fits its tasks, and each take brings what is next on its ring, all of it together is in order.
pub fn together_in_order()
    ensures { TogetherInOrder }
{}

/// In a record that keeps the rules, each take brings the message that is next on its ring.
pub fn takes_come_in_turn()
    ensures { TakesComeInTurn }
{}

/// Until control has all parts, a part that has an owner is in no message, and one that has none is in one: in a history in which takes
/// come in turn and actors own what they call and send, and so in a record that keeps the rules.
pub fn parts_are_tokens()
    ensures of_history { PartsAreTokens }
    ensures of_record { RulesKeepTokens }
{}

/// A worked record is lawful, and copies of it that are altered have the first violation that the rules give by hand.
pub fn worked_record()
    ensures lawful { IsLawful session steps }
    ensures copies { Gives session steps cases }
{}
