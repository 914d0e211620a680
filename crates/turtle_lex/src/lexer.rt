ghost use Rattle.std.specs.Prelude.{◌≡◌, IfOk, IfSome};
ghost use Rattle.turtle_grammar.specs.Spans.{LiesFrom};
ghost use Rattle.turtle_grammar.specs.Tokens.{start_of};
ghost use Rattle.turtle_lex.specs.Places.{IsPlace};
ghost use Rattle.turtle_lex.specs.Reading.{Steps, ComesNext, EndsAtPlace, fault_at};

use crate::characters::char_at;
use crate::fault::LexFault;
use crate::gap::gap_end;
use crate::start::found_at;
use crate::stop::Stop;
use std::marker::Model;
use turtle_grammar::Token;

/// Reads the tokens of a Turtle document, one after another.
#[derive(Drop)]
pub struct Lexer<'a> {
    text: &'a str,
    at: usize,
    fault: Option<LexFault>,
}

impl<'a> Model for Lexer<'a> {
    ghost use Rattle.std.specs.Prelude.{◌≡◌, ◌≤◌, length, drop, true};
    ghost use Rattle.std.specs.Str.{is_utf8};
    ghost use Rattle.turtle_lex.specs.Reading.{Reading};

    ghost Value = { Reading };

    ghost view = { λ lexer. record { text = lexer.text.now; at = lexer.at; fault = lexer.fault } };

    ghost invariant = { λ lexer. (lexer.at ≤ length lexer.text.now) × (is_utf8 (drop lexer.at lexer.text.now) ≡ true) };
}

impl<'a> Lexer<'a> {
    ghost use Rattle.turtle_lex.specs.Reading.{IsBegun};

    /// A lexer before the first token of these bytes. Whether they are UTF-8 is told by the first call of `next`.
    #[tactic(auto, using(crate::proofs::Assembly::place_kept, crate::proofs::Assembly::empty_kept))]
    pub fn new(bytes: &'a [u8]) -> Self
        ensures { IsBegun bytes.now result }
    {
        match simdutf8::compat::from_utf8(bytes) {
            Ok(text) => {
                let at = behind_mark(text);
                Lexer {
                    text,
                    at,
                    fault: None,
                }
            }
            Err(fault) => Lexer {
                text: "",
                at: 0,
                fault: Some(LexFault::NotUtf8(fault.valid_up_to())),
            },
        }
    }
}

/// The place after a byte order mark with which a text begins, else its beginning.
fn behind_mark(text: &str) -> usize
    ensures place { IsPlace text.now result }
    ensures value { result ≡ start_of text.now }
{
    match char_at(text, 0) {
        None => 0,
        Some((c, next)) => { if c == '\u{FEFF}' { next } else { 0 } }
    }
}

/// The fault that a stop at a token's place is.
fn fault_of(stop: Stop, at: usize) -> LexFault
    ensures { result ≡ fault_at stop at }
{
    match stop {
        Stop::Unclosed => LexFault::Unclosed(at),
        Stop::Bad(place) => LexFault::BadByte(place),
    }
}

/// What comes next after the white space and comments at a place.
fn token_from(text: &str, from: usize) -> Result<Option<Token>, LexFault>
    requires { IsPlace text.now from }
    ensures place { EndsAtPlace text.now result }
    ensures value { ComesNext text.now from result }
{
    let at = gap_end(text, from);
    match char_at(text, at) {
        None => Ok(None),
        Some((c, next)) => match found_at(text, at, c, next) {
            Ok((kind, upto)) => Ok(Some(Token { kind, at, upto })),
            Err(stop) => Err(fault_of(stop, at)),
        },
    }
}

/// The longest token at the next place, None where only white space and comments are left, or why there is none.
/// After a fault it is the same fault again. A token begins at the end of the one before or after it.
pub fn next(lexer: &mut Lexer<'_>) -> Result<Option<Token>, LexFault>
    ensures steps { Steps lexer.old result lexer.new }
    ensures rising { IfOk result (λ found. IfSome found (LiesFrom lexer.old.text lexer.old.at)) }
{
    if let Some(fault) = lexer.fault {
        return Err(fault);
    }
    match token_from(lexer.text, lexer.at) {
        Ok(Some(token)) => {
            lexer.at = token.upto;
            Ok(Some(token))
        }
        Ok(None) => Ok(None),
        Err(fault) => {
            lexer.fault = Some(fault);
            Err(fault)
        }
    }
}
