ghost use Rattle.turtle_grammar.specs.Pattern.{TestAgrees};
ghost use Rattle.turtle_grammar.specs.Spans.{HasRisingSpans};
ghost use Rattle.turtle_grammar.specs.Tokens.{HasOneAnswer, HasOneReading, HasAnswers, HasReadings};

/// The computing test of a pattern is true of the texts that match it, and of no others.
#[tactic(auto, using(crate::proofs::Derivatives::test_agrees))]
pub fn test_agrees()
    ensures { TestAgrees }
{}

/// No place of a text has two answers.
pub fn one_answer()
    ensures { HasOneAnswer }
{}

/// Each place of a text has an answer: a token, the end, or a fault.
pub fn some_answer()
    ensures { HasAnswers }
{}

/// No text falls into tokens in two ways.
#[tactic(auto, using(crate::proofs::OneAnswer::one_reading))]
pub fn one_reading()
    ensures { HasOneReading }
{}

/// Each text in UTF-8 falls into tokens, up to its end or a fault.
pub fn some_reading()
    ensures { HasReadings }
{}

/// From a place of a text the next token begins there or after it, has a byte at least and ends within the text.
pub fn rising_spans()
    ensures { HasRisingSpans }
{}
