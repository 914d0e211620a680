ghost use Rattle.std.specs.Prelude.{◌≡◌, [], ◌∷◌};
ghost use Rattle.turtle_lex.specs.Numbers.{unsigned, whole, dot, first_dot, fraction, exponent_sign, exponent_digits, exponent_rest};
ghost use Rattle.turtle_lex.specs.Picks.{PicksAt, or_here};
ghost use Rattle.turtle_lex.specs.Places.{IsPlace};

use crate::characters::{char_at, is_digit, is_exponent, is_sign};
use crate::run::Run;
use turtle_grammar::TokenKind;

/// What was found, or else a token of the kind up to a place.
pub fn found_or(
    found: Option<(TokenKind, usize)>,
    kind: TokenKind,
    at: usize,
) -> Option<(TokenKind, usize)>
    ensures { result ≡ or_here found (kind ∷ []) at }
{
    match found {
        None => Some((kind, at)),
        Some(token) => Some(token),
    }
}

/// After the first digit of an exponent.
fn exponent_rest_at(text: &str, at: usize) -> Option<(TokenKind, usize)>
    requires { IsPlace text.now at }
    ensures { PicksAt exponent_rest text.now at result }
{
    let end = Run::Digits.end(text, at);
    Some((TokenKind::Double, end))
}

/// After the sign of an exponent.
fn exponent_digits_at(text: &str, at: usize) -> Option<(TokenKind, usize)>
    requires { IsPlace text.now at }
    ensures { PicksAt exponent_digits text.now at result }
{
    match char_at(text, at) {
        None => None,
        Some((c, next)) => {
            if is_digit(c) {
                exponent_rest_at(text, next)
            } else {
                None
            }
        }
    }
}

/// After the letter of an exponent.
fn exponent_at(text: &str, at: usize) -> Option<(TokenKind, usize)>
    requires { IsPlace text.now at }
    ensures { PicksAt exponent_sign text.now at result }
{
    match char_at(text, at) {
        None => None,
        Some((c, next)) => {
            if is_digit(c) {
                exponent_rest_at(text, next)
            } else if is_sign(c) {
                exponent_digits_at(text, next)
            } else {
                None
            }
        }
    }
}

/// After a dot and a digit.
pub fn fraction_at(text: &str, at: usize) -> Option<(TokenKind, usize)>
    requires { IsPlace text.now at }
    ensures { PicksAt fraction text.now at result }
{
    let end = Run::Digits.end(text, at);
    match char_at(text, end) {
        None => Some((TokenKind::Decimal, end)),
        Some((c, next)) => {
            if is_exponent(c) {
                found_or(exponent_at(text, next), TokenKind::Decimal, end)
            } else {
                Some((TokenKind::Decimal, end))
            }
        }
    }
}

/// After digits and a dot.
fn dot_at(text: &str, at: usize) -> Option<(TokenKind, usize)>
    requires { IsPlace text.now at }
    ensures { PicksAt dot text.now at result }
{
    match char_at(text, at) {
        None => None,
        Some((c, next)) => {
            if is_digit(c) {
                fraction_at(text, next)
            } else if is_exponent(c) {
                exponent_at(text, next)
            } else {
                None
            }
        }
    }
}

/// After a dot with which the number begins.
fn first_dot_at(text: &str, at: usize) -> Option<(TokenKind, usize)>
    requires { IsPlace text.now at }
    ensures { PicksAt first_dot text.now at result }
{
    match char_at(text, at) {
        None => None,
        Some((c, next)) => {
            if is_digit(c) {
                fraction_at(text, next)
            } else {
                None
            }
        }
    }
}

/// After the first digit.
pub fn whole_at(text: &str, at: usize) -> Option<(TokenKind, usize)>
    requires { IsPlace text.now at }
    ensures { PicksAt whole text.now at result }
{
    let end = Run::Digits.end(text, at);
    match char_at(text, end) {
        None => Some((TokenKind::Integer, end)),
        Some((c, next)) => {
            if c == '.' {
                found_or(dot_at(text, next), TokenKind::Integer, end)
            } else if is_exponent(c) {
                found_or(exponent_at(text, next), TokenKind::Integer, end)
            } else {
                Some((TokenKind::Integer, end))
            }
        }
    }
}

/// After a sign.
pub fn unsigned_at(text: &str, at: usize) -> Option<(TokenKind, usize)>
    requires { IsPlace text.now at }
    ensures { PicksAt unsigned text.now at result }
{
    match char_at(text, at) {
        None => None,
        Some((c, next)) => {
            if is_digit(c) {
                whole_at(text, next)
            } else if c == '.' {
                first_dot_at(text, next)
            } else {
                None
            }
        }
    }
}
