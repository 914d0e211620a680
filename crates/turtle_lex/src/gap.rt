ghost use Rattle.std.specs.Prelude.{◌≤◌, false};
ghost use Rattle.turtle_lex.specs.Tags.{gap_state, GapSteps, GapCarries};
ghost use Rattle.turtle_lex.specs.Picks.{PicksAt};
ghost use Rattle.turtle_lex.specs.Places.{IsPlace};

use crate::characters::{char_at, is_line_end, is_white};
use crate::class::Class;
use turtle_grammar::TokenKind;

/// Whether a comment is open after the character, or none where the gap ends before it.
fn gap_step(c: char, in_comment: bool) -> Option<bool>
    ensures { GapSteps c in_comment result }
{
    if in_comment {
        Some(!is_line_end(c))
    } else if c == '#' {
        Some(true)
    } else if is_white(c) {
        Some(false)
    } else {
        None
    }
}

/// Over white space, or over what is left of a comment but for its line's end.
fn gap_run_end(text: &str, from: usize, in_comment: bool) -> usize
    requires { IsPlace text.now from }
    ensures place { IsPlace text.now result }
    ensures further { from ≤ result }
    ensures carries { GapCarries in_comment text.now from result }
{
    if in_comment {
        Class::Comment.run_end(text, from)
    } else {
        Class::White.run_end(text, from)
    }
}

/// The end of the white space and comments that begin at a place.
pub fn gap_end(text: &str, from: usize) -> usize
    requires { IsPlace text.now from }
    ensures { PicksAt (gap_state false) text.now from (Some (TokenKind.Dot, result)) }
{
    let mut at = gap_run_end(text, from, false);
    let mut in_comment = false;
    while let Some((c, next)) = char_at(text, at) {
        match gap_step(c, in_comment) {
            None => return at,
            Some(inside) => {
                in_comment = inside;
                at = gap_run_end(text, next, inside);
            }
        }
    }
    at
}
