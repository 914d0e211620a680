ghost use Rattle.turtle_words.specs.Words.{FallsIntoWords, IrisAreTokens, StringsAreTokens};

/// A text that is written word by word, with white space after each, falls into the tokens of its words.
#[tactic(auto, using(crate::proofs::Lexing::falls_into_words))]
pub fn falls_into_words()
    ensures { FallsIntoWords }
{}

/// A text without what an IRI excludes is one token between angle brackets.
pub fn iris_are_tokens()
    ensures { IrisAreTokens }
{}

/// A text without a quote, a backslash and a line's end is one token between quotes.
pub fn strings_are_tokens()
    ensures { StringsAreTokens }
{}
