ghost use Rattle.std.specs.Prelude.{◌≡◌, ◌≢◌, true};
ghost use Rattle.turtle_grammar.specs.Characters.{is_name_base};
ghost use Rattle.turtle_lex.specs.Kinds.{IsMark, dot_start, underscore, caret, tokens};
ghost use Rattle.turtle_lex.specs.Names.{prefix};
ghost use Rattle.turtle_lex.specs.Picks.{PicksAt};
ghost use Rattle.turtle_lex.specs.Places.{IsPlace, Reads};

use crate::characters::{char_at, is_digit, is_name_base, is_sign};
use crate::local::local_at;
use crate::name::{label_at, name_end};
use crate::number::{found_or, fraction_at, unsigned_at, whole_at};
use crate::tag::tag_at;
use crate::word::word_at;
use turtle_grammar::TokenKind;

/// The mark that the character is, if it is one that begins no other token.
fn mark_of(c: char) -> Option<TokenKind>
    ensures { IsMark c result }
{
    match c {
        ',' => Some(TokenKind::Comma),
        ';' => Some(TokenKind::Semicolon),
        '[' => Some(TokenKind::OpenSquare),
        ']' => Some(TokenKind::CloseSquare),
        '(' => Some(TokenKind::OpenRound),
        ')' => Some(TokenKind::CloseRound),
        _ => None,
    }
}

/// After a dot: a number, or the dot alone.
fn dot_start_at(text: &str, at: usize) -> Option<(TokenKind, usize)>
    requires { IsPlace text.now at }
    ensures { PicksAt dot_start text.now at result }
{
    match char_at(text, at) {
        None => Some((TokenKind::Dot, at)),
        Some((c, next)) => {
            if is_digit(c) {
                found_or(fraction_at(text, next), TokenKind::Dot, at)
            } else {
                Some((TokenKind::Dot, at))
            }
        }
    }
}

/// After `^`.
fn caret_at(text: &str, at: usize) -> Option<(TokenKind, usize)>
    requires { IsPlace text.now at }
    ensures { PicksAt caret text.now at result }
{
    match char_at(text, at) {
        None => None,
        Some((c, next)) => {
            if c == '^' {
                Some((TokenKind::DoubleCaret, next))
            } else {
                None
            }
        }
    }
}

/// After `_`.
fn underscore_at(text: &str, at: usize) -> Option<(TokenKind, usize)>
    requires { IsPlace text.now at }
    ensures { PicksAt underscore text.now at result }
{
    match char_at(text, at) {
        None => None,
        Some((c, next)) => { if c == ':' { label_at(text, next) } else { None } }
    }
}

/// A name, read after the first letter of its prefix.
#[inline(always)]
fn prefix_at(text: &str, at: usize) -> Option<(TokenKind, usize)>
    requires { IsPlace text.now at }
    ensures { PicksAt prefix text.now at result }
{
    let end = name_end(text, at);
    match char_at(text, end) {
        None => None,
        Some((c, next)) => { if c == ':' { local_at(text, next) } else { None } }
    }
}

/// The longest token that begins with `c` at `at`, after which `next` is. `c` opens no quote and no IRI.
pub fn plain_at(text: &str, at: usize, c: char, next: usize) -> Option<(TokenKind, usize)>
    requires place { IsPlace text.now at }
    requires reads { Reads text.now at c next }
    requires no_angle { c ≢ 60 }
    requires no_double { c ≢ 34 }
    requires no_single { c ≢ 39 }
    ensures { PicksAt tokens text.now at result }
{
    if is_name_base(c) {
        name_or_word_at(text, at, c, next)
    } else if is_digit(c) {
        whole_at(text, next)
    } else if is_sign(c) {
        unsigned_at(text, next)
    } else if c == '.' {
        dot_start_at(text, next)
    } else if c == ':' {
        local_at(text, next)
    } else if c == '_' {
        underscore_at(text, next)
    } else if c == '@' {
        tag_at(text, next)
    } else if c == '^' {
        caret_at(text, next)
    } else {
        match mark_of(c) {
            None => None,
            Some(kind) => Some((kind, next)),
        }
    }
}

/// The name or the word that begins with a letter `c` at `at`, after which `next` is.
#[inline(always)]
fn name_or_word_at(text: &str, at: usize, c: char, next: usize) -> Option<(TokenKind, usize)>
    requires place { IsPlace text.now at }
    requires reads { Reads text.now at c next }
    requires letter { is_name_base c ≡ true }
    ensures { PicksAt tokens text.now at result }
{
    match prefix_at(text, next) {
        None => word_at(text, at, c, next),
        Some(name) => Some(name),
    }
}
