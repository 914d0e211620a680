ghost use Rattle.std.specs.Prelude.{◌≢◌};
ghost use Rattle.turtle_grammar.specs.Characters.{is_local_escape};
ghost use Rattle.turtle_grammar.specs.Pattern.{one, times};
ghost use Rattle.turtle_grammar.specs.Terminals.{hex};
ghost use Rattle.turtle_lex.specs.Names.{colon, local, GoesWithin, GoesOnLocally};
ghost use Rattle.turtle_lex.specs.Picks.{PicksAt};
ghost use Rattle.turtle_lex.specs.Places.{IsPlace, Reads};

use crate::characters::{char_at, is_hex, is_local_char, is_local_escape, is_local_start};
use crate::class::Class;
use turtle_grammar::TokenKind;

/// Over the second digit after `%`.
fn second_digit_end(text: &str, at: usize) -> Option<usize>
    requires { IsPlace text.now at }
    ensures { GoesWithin hex text.now at result }
{
    match char_at(text, at) {
        None => None,
        Some((c, next)) => { if is_hex(c) { Some(next) } else { None } }
    }
}

/// Over the two digits after `%`.
fn digits_end(text: &str, at: usize) -> Option<usize>
    requires { IsPlace text.now at }
    ensures { GoesWithin (times 2 hex) text.now at result }
{
    match char_at(text, at) {
        None => None,
        Some((c, next)) => {
            if is_hex(c) {
                second_digit_end(text, next)
            } else {
                None
            }
        }
    }
}

/// Over the character after a backslash.
fn escaped_end(text: &str, at: usize) -> Option<usize>
    requires { IsPlace text.now at }
    ensures { GoesWithin (one is_local_escape) text.now at result }
{
    match char_at(text, at) {
        None => None,
        Some((c, next)) => { if is_local_escape(c) { Some(next) } else { None } }
    }
}

/// Over the part of a local name that begins with `c` at `at`, after which `next` is.
fn part_end(text: &str, at: usize, c: char, next: usize) -> Option<usize>
    requires place { IsPlace text.now at }
    requires reads { Reads text.now at c next }
    requires no_dot { c ≢ 46 }
    ensures { GoesOnLocally text.now at result }
{
    if is_local_char(c) {
        Some(next)
    } else if c == '%' {
        digits_end(text, next)
    } else if c == '\\' {
        escaped_end(text, next)
    } else {
        None
    }
}

/// Where a local name ends, read from the end of its first part: not after a plain dot.
fn local_end(text: &str, from: usize) -> usize
    requires { IsPlace text.now from }
    ensures { PicksAt local text.now from (Some (TokenKind.PrefixedName, result)) }
{
    let mut at = Class::LocalName.run_end(text, from);
    let mut last = at;
    while let Some((c, next)) = char_at(text, at) {
        if c == '.' {
            at = next;
        } else {
            match part_end(text, at, c, next) {
                None => return last,
                Some(end) => {
                    at = Class::LocalName.run_end(text, end);
                    last = at;
                }
            }
        }
    }
    last
}

/// A local name, if one stands after the colon at whose end `at` is.
#[inline(always)]
pub fn local_at(text: &str, at: usize) -> Option<(TokenKind, usize)>
    requires { IsPlace text.now at }
    ensures { PicksAt colon text.now at result }
{
    match char_at(text, at) {
        None => Some((TokenKind::Namespace, at)),
        Some((c, next)) => {
            if is_local_start(c) {
                let end = local_end(text, next);
                Some((TokenKind::PrefixedName, end))
            } else if c == '%' {
                match digits_end(text, next) {
                    None => Some((TokenKind::Namespace, at)),
                    Some(first) => {
                        let end = local_end(text, first);
                        Some((TokenKind::PrefixedName, end))
                    }
                }
            } else if c == '\\' {
                match escaped_end(text, next) {
                    None => Some((TokenKind::Namespace, at)),
                    Some(first) => {
                        let end = local_end(text, first);
                        Some((TokenKind::PrefixedName, end))
                    }
                }
            } else {
                Some((TokenKind::Namespace, at))
            }
        }
    }
}
