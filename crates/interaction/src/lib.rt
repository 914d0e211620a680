//! What a call that makes attempts means: an interaction tree, its plays, and the law of answers.
#![tactic(auto)]

ghost use Rattle.interaction.specs.Laws.{AttemptsGoByAnswersBefore, ResultGoesByAnswersGiven, AnswersHaveAPlay, PlaysGoByTheirAnswers};

/// The law of answers, for calls with results of any type: whether there is an attempt at a place, and its body, depend on the answers
/// before it alone; the result depends on the answers to attempts that are made alone.
pub fn law_of_answers<R>()
    ensures attempts { AttemptsGoByAnswersBefore R }
    ensures result { ResultGoesByAnswersGiven R }
{}

/// The plays of a call are what it gives for lists of answers, which go on with 1 without end: each list has a play, and a play is the
/// one for its own answers.
pub fn plays_go_by_answers<R>()
    ensures some { AnswersHaveAPlay R }
    ensures only { PlaysGoByTheirAnswers R }
{}
