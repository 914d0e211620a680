ghost use Rattle.turtle_lex.specs.Tags.{tag_start, tag_letters, tag_rest, GoesOnWithHyphen};
ghost use Rattle.turtle_lex.specs.Picks.{PicksAt};
ghost use Rattle.turtle_lex.specs.Places.{IsPlace, Reads};

use crate::characters::{char_at, is_letter, is_letter_or_digit};
use crate::run::Run;
use turtle_grammar::TokenKind;

/// After a hyphen and the letter or digit that follows, if they stand here.
fn hyphen_at(text: &str, at: usize) -> Option<usize>
    requires { IsPlace text.now at }
    ensures { GoesOnWithHyphen text.now at result }
{
    match char_at(text, at) {
        None => None,
        Some((c, next)) => {
            if c == '-' {
                letter_or_digit_at(text, at, next)
            } else {
                None
            }
        }
    }
}

/// After the letter or digit at `next`, before which a hyphen stands at `at`.
fn letter_or_digit_at(text: &str, at: usize, next: usize) -> Option<usize>
    requires place { IsPlace text.now at }
    requires hyphen { Reads text.now at 45 next }
    ensures { GoesOnWithHyphen text.now at result }
{
    match char_at(text, next) {
        None => None,
        Some((c, end)) => {
            if is_letter_or_digit(c) {
                Some(end)
            } else {
                None
            }
        }
    }
}

/// The end of a tag, read after the first letter or digit of a part that a hyphen begins.
fn subtags_end(text: &str, from: usize) -> usize
    requires { IsPlace text.now from }
    ensures { PicksAt tag_rest text.now from (Some (TokenKind.LanguageTag, result)) }
{
    let mut end = Run::LettersOrDigits.end(text, from);
    while let Some(next) = hyphen_at(text, end) {
        end = Run::LettersOrDigits.end(text, next);
    }
    end
}

/// A language tag, read after its `@`.
pub fn tag_at(text: &str, at: usize) -> Option<(TokenKind, usize)>
    requires { IsPlace text.now at }
    ensures { PicksAt tag_start text.now at result }
{
    match char_at(text, at) {
        None => None,
        Some((c, next)) => {
            if is_letter(c) {
                let end = tag_letters_end(text, next);
                Some((TokenKind::LanguageTag, end))
            } else {
                None
            }
        }
    }
}

/// The end of a tag, read after its first letter.
fn tag_letters_end(text: &str, from: usize) -> usize
    requires { IsPlace text.now from }
    ensures { PicksAt tag_letters text.now from (Some (TokenKind.LanguageTag, result)) }
{
    let end = Run::Letters.end(text, from);
    match hyphen_at(text, end) {
        None => end,
        Some(next) => subtags_end(text, next),
    }
}
