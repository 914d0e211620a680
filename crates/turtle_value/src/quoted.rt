ghost use Rattle.std.specs.Prelude.{◌≡◌, Contains, IfNone, IfOk, IfSome};
ghost use Rattle.std.specs.Str.{chars};
ghost use Rattle.turtle_grammar.specs.Value.{inside, quotes, reference_of, string_of};
ghost use Rattle.turtle_value.specs.Quotings.{quoting_of};

use crate::unescape::{content_text, plain_content};
use lv_base::{NoMemory, Text};
use std::alloc::Global;

/// The quotes of a string: String [17].
#[derive(Clone, Copy, Debug, PartialEq, Eq)]
pub enum Quotes {
    /// `".."`
    Double,
    /// `'..'`
    Single,
    /// `"""..."""`
    LongDouble,
    /// `'''..'''`
    LongSingle,
}

/// What a string says: each escape by its character (ECHAR [159s], UCHAR [26]).
pub fn string_text(alloc: Global, quotes: Quotes, token: &str) -> Result<Text, NoMemory>
    ensures { IfOk result (λ text. text ≡ string_of (quoting_of quotes) token.now) }
{
    content_text(alloc, token, count(quotes))
}

/// What stands between an IRI's angle brackets: each escape by its character (IRIREF [18]).
pub fn reference_text(alloc: Global, token: &str) -> Result<Text, NoMemory>
    ensures { IfOk result (λ text. text ≡ reference_of token.now) }
{
    content_text(alloc, token, 1)
}

/// The same, borrowed, where no escape stands there; `None` where a backslash stands between the angle brackets.
pub fn plain_reference(token: &str) -> Option<&str>
    ensures plain { IfSome result (λ text. text.now ≡ reference_of token.now) }
    ensures escaped { IfNone result (Contains (inside 1 (chars token.now)) 92) }
{
    plain_content(token, 1)
}

// How many quotes stand at each end.
fn count(of: Quotes) -> usize
    ensures { result ≡ quotes (quoting_of of) }
{
    match of {
        Quotes::Double | Quotes::Single => 1,
        Quotes::LongDouble | Quotes::LongSingle => 3,
    }
}
