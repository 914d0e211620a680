ghost use Rattle.std.specs.Prelude.{◌<◌, IfOk};
ghost use Rattle.turtle_grammar.specs.Pattern.{nothing};
ghost use Rattle.turtle_lex.specs.Enclosure.{piece, body, long_body};
ghost use Rattle.turtle_lex.specs.Places.{IsPlace, Reads};
ghost use Rattle.turtle_lex.specs.Scans.{Goes, Leads, LeadsInside};

use crate::characters::char_at;
use crate::class::Class;
use crate::enclosure::Enclosure;
use crate::escape::escape_end;
use crate::stop::Stop;

/// Over the character `c` at `at`, after which `next` is, or over the escape that it begins.
fn piece_end(
    text: &str,
    at: usize,
    c: char,
    next: usize,
    enclosure: Enclosure,
) -> Result<usize, Stop>
    requires place { IsPlace text.now at }
    requires reads { Reads text.now at c next }
    ensures place { IfOk result (IsPlace text.now) }
    ensures further { IfOk result (λ upto. at < upto) }
    ensures inside { LeadsInside (piece enclosure) text.now at result }
{
    if enclosure.is_plain(c) {
        Ok(next)
    } else if c == '\\' {
        escape_end(text, next, enclosure)
    } else {
        Err(Stop::Bad(at))
    }
}

/// Over the characters that stand for themselves.
fn plain_end(text: &str, from: usize, enclosure: Enclosure) -> usize
    requires { IsPlace text.now from }
    ensures short { Goes (body enclosure) (body enclosure) text.now from result }
    ensures long { Goes (long_body enclosure 0) (long_body enclosure 0) text.now from result }
{
    Class::Plain(enclosure).run_end(text, from)
}

/// From the end of the opening of an IRI or a short string to the end of its close.
pub fn body_end(text: &str, from: usize, enclosure: Enclosure) -> Result<usize, Stop>
    requires { IsPlace text.now from }
    ensures { Leads (body enclosure) nothing text.now from result }
{
    let mut at = plain_end(text, from, enclosure);
    while let Some((c, next)) = char_at(text, at) {
        if c == enclosure.closing() {
            return Ok(next);
        }
        let upto = piece_end(text, at, c, next, enclosure)?;
        at = plain_end(text, upto, enclosure);
    }
    Err(Stop::Unclosed)
}

/// From the end of the opening of a long string to the end of its close.
pub fn long_body_end(text: &str, from: usize, enclosure: Enclosure) -> Result<usize, Stop>
    requires { IsPlace text.now from }
    ensures { Leads (long_body enclosure 0) nothing text.now from result }
{
    let mut at = plain_end(text, from, enclosure);
    let mut quotes = 0usize;
    while let Some((c, next)) = char_at(text, at) {
        if c == enclosure.closing() {
            if quotes == 2 {
                return Ok(next);
            }
            quotes += 1;
            at = next;
        } else {
            let upto = piece_end(text, at, c, next, enclosure)?;
            at = plain_end(text, upto, enclosure);
            quotes = 0;
        }
    }
    Err(Stop::Unclosed)
}
