ghost use Rattle.turtle_lex.specs.Found.{FindsAt, OpensLong};
ghost use Rattle.turtle_lex.specs.Places.{IsPlace, Reads};

use crate::characters::char_at;
use crate::enclosed::{body_end, long_body_end};
use crate::enclosure::Enclosure;
use crate::plain::plain_at;
use crate::stop::Stop;
use turtle_grammar::TokenKind;

/// After two more quotes, if they stand at a place.
fn long_opening_end(text: &str, at: usize, quote: char) -> Option<usize>
    requires { IsPlace text.now at }
    ensures { OpensLong text.now at quote result }
{
    match char_at(text, at) {
        None => None,
        Some((c, next)) => {
            if c == quote {
                second_quote_end(text, at, next, quote)
            } else {
                None
            }
        }
    }
}

/// After the quote at `next`, where one stands at `at` before it.
fn second_quote_end(text: &str, at: usize, next: usize, quote: char) -> Option<usize>
    requires place { IsPlace text.now at }
    requires first { Reads text.now at quote next }
    ensures { OpensLong text.now at quote result }
{
    match char_at(text, next) {
        None => None,
        Some((c, after)) => { if c == quote { Some(after) } else { None } }
    }
}

/// A string whose first quote, `"`, stands at `at`, and `next` after it.
fn double_quoted_at(text: &str, at: usize, next: usize) -> Result<(TokenKind, usize), Stop>
    requires place { IsPlace text.now at }
    requires reads { Reads text.now at 34 next }
    ensures { FindsAt text.now at result }
{
    match long_opening_end(text, next, '"') {
        None => {
            let upto = body_end(text, next, Enclosure::Double)?;
            Ok((TokenKind::String, upto))
        }
        Some(inside) => {
            let upto = long_body_end(text, inside, Enclosure::LongDouble)?;
            Ok((TokenKind::LongString, upto))
        }
    }
}

/// A string whose first quote, `'`, stands at `at`, and `next` after it.
fn single_quoted_at(text: &str, at: usize, next: usize) -> Result<(TokenKind, usize), Stop>
    requires place { IsPlace text.now at }
    requires reads { Reads text.now at 39 next }
    ensures { FindsAt text.now at result }
{
    match long_opening_end(text, next, '\'') {
        None => {
            let upto = body_end(text, next, Enclosure::Single)?;
            Ok((TokenKind::SingleString, upto))
        }
        Some(inside) => {
            let upto = long_body_end(text, inside, Enclosure::LongSingle)?;
            Ok((TokenKind::LongSingleString, upto))
        }
    }
}

/// An IRI whose `<` stands at `at`, and `next` after it.
fn iri_at(text: &str, at: usize, next: usize) -> Result<(TokenKind, usize), Stop>
    requires place { IsPlace text.now at }
    requires reads { Reads text.now at 60 next }
    ensures { FindsAt text.now at result }
{
    let upto = body_end(text, next, Enclosure::Angle)?;
    Ok((TokenKind::Iri, upto))
}

/// What begins with `c` at `at`, after which `next` is.
pub fn found_at(text: &str, at: usize, c: char, next: usize) -> Result<(TokenKind, usize), Stop>
    requires place { IsPlace text.now at }
    requires reads { Reads text.now at c next }
    ensures { FindsAt text.now at result }
{
    if c == '<' {
        iri_at(text, at, next)
    } else if c == '"' {
        double_quoted_at(text, at, next)
    } else if c == '\'' {
        single_quoted_at(text, at, next)
    } else {
        match plain_at(text, at, c, next) {
            None => Err(Stop::Bad(at)),
            Some(token) => Ok(token),
        }
    }
}
