ghost use Rattle.turtle_lex.specs.Names.{label_start, IsNameEnd};
ghost use Rattle.turtle_lex.specs.Picks.{PicksAt};
ghost use Rattle.turtle_lex.specs.Places.{IsPlace};

use crate::characters::{char_at, is_digit, is_name_char, is_name_start};
use crate::class::Class;
use turtle_grammar::TokenKind;

/// Where a prefix or a label ends, read from the end of its first character: not after a dot.
pub fn name_end(text: &str, from: usize) -> usize
    requires { IsPlace text.now from }
    ensures { IsNameEnd text.now from result }
{
    let mut at = Class::Name.run_end(text, from);
    let mut last = at;
    while let Some((c, next)) = char_at(text, at) {
        if is_name_char(c) {
            at = Class::Name.run_end(text, next);
            last = at;
        } else if c == '.' {
            at = next;
        } else {
            return last;
        }
    }
    last
}

/// A blank node's label, read after its `_:`.
pub fn label_at(text: &str, at: usize) -> Option<(TokenKind, usize)>
    requires { IsPlace text.now at }
    ensures { PicksAt label_start text.now at result }
{
    match char_at(text, at) {
        None => None,
        Some((c, next)) => {
            if is_name_start(c) {
                let end = name_end(text, next);
                Some((TokenKind::BlankLabel, end))
            } else if is_digit(c) {
                let end = name_end(text, next);
                Some((TokenKind::BlankLabel, end))
            } else {
                None
            }
        }
    }
}
