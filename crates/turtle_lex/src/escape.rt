ghost use Rattle.std.specs.Prelude.{◌≡◌, IfOk};
ghost use Rattle.turtle_grammar.specs.Pattern.{one, times};
ghost use Rattle.turtle_grammar.specs.Terminals.{hex, short_code, long_code};
ghost use Rattle.turtle_lex.specs.Places.{IsPlace};
ghost use Rattle.turtle_lex.specs.Enclosure.{plane_code, low_plane_code, escape_rest};
ghost use Rattle.turtle_lex.specs.Scans.{LeadsInside};

use crate::characters::{char_at, is_d, is_hex, is_hex_but_d};
use crate::enclosure::Enclosure;
use crate::stop::Stop;

/// A digit that an escape asks for.
#[derive(Clone, Copy)]
pub enum Digit {
    Hex,
    Octal,
    Zero,
}

impl Digit {
    ghost use Rattle.turtle_lex.specs.Digits.{digit_class};

    #[tactic(auto, unfolding(turtle_grammar::specs::Characters::is_hex, turtle_grammar::specs::Characters::is_digit))]
    fn is_met(self, c: char) -> bool
        ensures { result ≡ digit_class self c }
    {
        match self {
            Digit::Hex => is_hex(c),
            Digit::Octal => matches!(c, '0'..='7'),
            Digit::Zero => c == '0',
        }
    }

    /// Over one such digit.
    fn end(self, text: &str, at: usize) -> Result<usize, Stop>
        requires { IsPlace text.now at }
        ensures place { IfOk result (IsPlace text.now) }
        ensures inside { LeadsInside (one (digit_class self)) text.now at result }
    {
        match char_at(text, at) {
            None => Err(Stop::Unclosed),
            Some((c, next)) => {
                if self.is_met(c) {
                    Ok(next)
                } else {
                    Err(Stop::Bad(at))
                }
            }
        }
    }
}

/// Over so many hexadecimal digits.
fn hex_run_end(text: &str, from: usize, count: usize) -> Result<usize, Stop>
    requires { IsPlace text.now from }
    ensures place { IfOk result (IsPlace text.now) }
    ensures inside { LeadsInside (times count hex) text.now from result }
{
    let mut at = from;
    let mut left = count;
    while left > 0 {
        at = Digit::Hex.end(text, at)?;
        left -= 1;
    }
    Ok(at)
}

/// Over the four digits of a character below 0x10000, which is no surrogate.
fn short_code_end(text: &str, at: usize) -> Result<usize, Stop>
    requires { IsPlace text.now at }
    ensures place { IfOk result (IsPlace text.now) }
    ensures inside { LeadsInside short_code text.now at result }
{
    match char_at(text, at) {
        None => Err(Stop::Unclosed),
        Some((c, next)) => {
            if is_hex_but_d(c) {
                hex_run_end(text, next, 3)
            } else if is_d(c) {
                let third = Digit::Octal.end(text, next)?;
                hex_run_end(text, third, 2)
            } else {
                Err(Stop::Bad(at))
            }
        }
    }
}

/// Over the eight digits of a character, which is no surrogate.
fn long_code_end(text: &str, from: usize) -> Result<usize, Stop>
    requires { IsPlace text.now from }
    ensures place { IfOk result (IsPlace text.now) }
    ensures inside { LeadsInside long_code text.now from result }
{
    let second = Digit::Zero.end(text, from)?;
    let third = Digit::Zero.end(text, second)?;
    plane_end(text, third)
}

/// Over six digits that are at most `10FFFF`.
fn plane_end(text: &str, at: usize) -> Result<usize, Stop>
    requires { IsPlace text.now at }
    ensures place { IfOk result (IsPlace text.now) }
    ensures inside { LeadsInside plane_code text.now at result }
{
    match char_at(text, at) {
        None => Err(Stop::Unclosed),
        Some((c, next)) => {
            if c == '1' {
                let fifth = Digit::Zero.end(text, next)?;
                hex_run_end(text, fifth, 4)
            } else if c == '0' {
                low_plane_end(text, next)
            } else {
                Err(Stop::Bad(at))
            }
        }
    }
}

/// Over five digits that are no surrogate.
fn low_plane_end(text: &str, at: usize) -> Result<usize, Stop>
    requires { IsPlace text.now at }
    ensures place { IfOk result (IsPlace text.now) }
    ensures inside { LeadsInside low_plane_code text.now at result }
{
    match char_at(text, at) {
        None => Err(Stop::Unclosed),
        Some((c, next)) => {
            if c == '0' {
                short_code_end(text, next)
            } else if is_hex(c) {
                hex_run_end(text, next, 4)
            } else {
                Err(Stop::Bad(at))
            }
        }
    }
}

/// Over what follows a backslash. In quotes a letter may stand for a character.
pub fn escape_end(text: &str, at: usize, enclosure: Enclosure) -> Result<usize, Stop>
    requires { IsPlace text.now at }
    ensures place { IfOk result (IsPlace text.now) }
    ensures inside { LeadsInside (escape_rest enclosure) text.now at result }
{
    match char_at(text, at) {
        None => Err(Stop::Unclosed),
        Some((c, next)) => {
            if c == 'u' {
                short_code_end(text, next)
            } else if c == 'U' {
                long_code_end(text, next)
            } else if enclosure.has_letter_escape(c) {
                Ok(next)
            } else {
                Err(Stop::Bad(at))
            }
        }
    }
}
