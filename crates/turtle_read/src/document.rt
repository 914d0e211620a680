ghost use Rattle.std.specs.Prelude.{◌≡◌, ◌⊎◌, ◌^◌, ℕ, List, [], true, is_some, Err, OnOk, OnErr, IfErr};
ghost use Rattle.iri_resolve.specs.Components.{scheme_of};
ghost use Rattle.triple_store.specs.declared.term.Triple.{Triple};
ghost use Rattle.turtle_document.specs.Below.{NextBelow};
ghost use Rattle.turtle_document.specs.Answer.{Outcome, IsReadAs};
ghost use Rattle.turtle_document.specs.Meaning.{beginning};
ghost use Rattle.turtle_document.specs.Numbers.{HaveFewNumbers};
ghost use Rattle.turtle_document.specs.declared.expected.Expected.TheVariants as expect;
ghost use Rattle.turtle_read.specs.Answers.{Tells, ReadsDocument, answer_of};
ghost use Rattle.turtle_read.specs.Faults.{Follows};
ghost use Rattle.turtle_read.specs.Moves as machine;
ghost use Rattle.turtle_read.specs.Readers.{config_of, inside, kept};
ghost use Rattle.turtle_read.specs.Rooms.{HasRoom};
ghost use Rattle.turtle_read.specs.Tokens.{IsTokenOf, leaf_in};

use crate::TurtleFault;
use crate::environment::Environment;
use crate::lexeme::Lexeme;
use crate::reader::Reader;
use crate::recent::Recent;
use crate::shared::SharedTexts;
use crate::short_forms::ShortForms;
use crate::token_fault::TokenFault;
use lv_base::Text;
use std::alloc::Global;
use std::mem;
use triple_store::Store;
use turtle_document::Expected;
use turtle_grammar::Token;
use turtle_lex::{LexFault, Lexer};

/// Reads a Turtle 1.1 document, whose relative IRIs are seen from `base`, an IRI with a scheme, and adds its triples to the store,
/// each once, in the order in which their objects end. It answers how many of them are new. Blank nodes are numbered on from those
/// of the store, whose blank numbers are at most twice its rows, as they are in a store without rows; afterwards it is so again.
///
/// Bytes that aren't UTF-8 are `NotUtf8`, whatever stands before them. Else the fault is the first one on the way from the first
/// token to the last. After a fault the store has the rows that it had before.
pub fn read(alloc: Global, base: &Text, bytes: &[u8], store: &mut Store) -> Result<u32, TurtleFault>
    requires scheme { is_some (scheme_of base.now) ≡ true }
    requires few { HaveFewNumbers store.old }
    ensures answers { ReadsDocument (beginning base.now store.old) bytes.now result store.new }
    ensures told { (o : Outcome) → IsReadAs (beginning base.now store.old) bytes.now o → (result ≡ answer_of store.old o) ⊎ (result ≡ Err TurtleFault.NoMemory) }
    ensures few { HaveFewNumbers store.new }
{
    match simdutf8::compat::from_utf8(bytes) {
        Ok(text) => read_text(alloc, base, text, store),
        Err(fault) => Err(TurtleFault::Lex(LexFault::NotUtf8(fault.valid_up_to()))),
    }
}

// Reads a document that is UTF-8.
fn read_text(alloc: Global, base: &Text, text: &str, store: &mut Store) -> Result<u32, TurtleFault>
    requires scheme { is_some (scheme_of base.now) ≡ true }
    requires few { HaveFewNumbers store.old }
    ensures { ReadsDocument (beginning base.now store.old) text.now result store.new }
{
    let base = base.clone()?;
    let shorts = SharedTexts::new(alloc)?;
    let recent = Recent::new(alloc)?;
    let words = ShortForms::new(alloc)?;
    let before = store.count();
    let hashing = store.hashing();
    let taken = mem::replace(store, Store::new(alloc));
    let environment = Environment::new(alloc, base, taken, hashing, recent);
    let reader = Reader::new(alloc, words, shorts, environment);
    match read_all(reader, text, store) {
        Ok(()) => Ok(store.count() - before),
        Err(fault) => Err(fault),
    }
}

// Takes all tokens of a text, and gives the store back: as it was before, where there is a fault.
fn read_all(reader: Reader, text: &str, store: &mut Store) -> Result<(), TurtleFault>
    requires next { reader.next ≡ expect.Statement }
    requires outer { reader.outer ≡ [] }
    requires begun { (base : List ℕ) × (rows : List Triple) × (inside reader ≡ beginning base rows) × HaveFewNumbers rows }
    ensures ok { OnOk result (IsReadAs (inside reader) text.now (Outcome.document store.new)) }
    ensures err { IfErr result (Tells (IsReadAs (inside reader) text.now)) }
    ensures rows { OnErr result (store.new ≡ kept reader) }
{
    let mut reader = reader;
    match take_tokens(&mut reader, text) {
        Ok(()) => {
            mem::drop(mem::replace(store, reader.into_store()));
            Ok(())
        }
        Err(fault) => {
            mem::drop(mem::replace(store, reader.into_old_store()));
            Err(fault)
        }
    }
}

// Takes all tokens of a text, up to its end or the first fault.
fn take_tokens(reader: &mut Reader, text: &str) -> Result<(), TurtleFault>
    requires next { reader.old.next ≡ expect.Statement }
    requires outer { reader.old.outer ≡ [] }
    requires begun { (base : List ℕ) × (rows : List Triple) × (inside reader.old ≡ beginning base rows) × HaveFewNumbers rows }
    ensures ok { OnOk result (IsReadAs (inside reader.old) text.now (Outcome.document (inside reader.new).rows)) }
    ensures err { IfErr result (Tells (IsReadAs (inside reader.old) text.now)) }
    ensures kept { kept reader.new ≡ kept reader.old }
{
    let mut lexer = Lexer::new(text.as_bytes());
    while let Some(token) = turtle_lex::next(&mut lexer)? {
        take_token(reader, text, token)?;
    }
    match reader.next {
        Expected::Statement => Ok(()),
        _ => Err(TurtleFault::Syntax(text.len())),
    }
}

#[inline(always)]
// Takes a token of a text.
fn take_token(reader: &mut Reader, text: &str, token: Token) -> Result<(), TokenFault>
    requires token { IsTokenOf text.now token }
    requires next { NextBelow (2 ^ 31) reader.old.next }
    requires room { HasRoom 2 (inside reader.old) }
    ensures moves { Follows token.at result (config_of reader.new) (inside reader.new) (machine.move (config_of reader.old) token.kind (leaf_in text.now token) (inside reader.old)) }
    ensures kept { kept reader.new ≡ kept reader.old }
{
    reader.step(Lexeme {
        kind: token.kind,
        at: token.at,
        text: &text[token.at..token.upto],
    })
}
