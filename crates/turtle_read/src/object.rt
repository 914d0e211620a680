ghost use Rattle.std.specs.Prelude.{◌≡◌, IfOk};
ghost use Rattle.std.specs.Option.{option_map};
ghost use Rattle.turtle_document.specs.Machine.{as_shorthand};
ghost use Rattle.turtle_read.specs.Names.{short_of};

use crate::kinds::quotes_of;
use crate::lexeme::Lexeme;
use crate::reader::Reader;
use crate::recent::Recurs;
use crate::shared::SharedTexts;
use crate::short_forms::ShortForms;
use crate::token_fault::TokenFault;
use lv_base::NoMemory;
use std::alloc::Global;
use triple_store::Term;
use turtle_document::{Chain, Expected, Hole};
use turtle_grammar::TokenKind;

// The literal that a number or a truth value is, `None` where a token is neither.
#[inline(always)]
fn short_term(
    alloc: Global,
    words: &ShortForms,
    shorts: &mut SharedTexts,
    token: Lexeme<'_>,
) -> Result<Option<Term>, NoMemory>
    ensures { IfOk result (λ term. term ≡ option_map (short_of token.entry.text.now) (as_shorthand token.entry.kind)) }
{
    let Some(datatype) = words.datatype_of(token.kind) else {
        return Ok(None);
    };
    let datatype = datatype.clone()?;
    let text = shorts.text(alloc, token.text)?;
    let term = words.typed(text, datatype)?;
    Ok(Some(term))
}

impl Reader {
    ghost use Rattle.std.specs.Prelude.{◌≡◌, length, IfOk, OnOk, ◌^◌};
    ghost use Rattle.turtle_document.specs.Meaning.{may_open, numbered};
    ghost use Rattle.turtle_grammar.specs.declared.token.TokenKind.TheVariants as kinds;
    ghost use Rattle.turtle_read.specs.Moves as machine;
    ghost use Rattle.turtle_read.specs.Faults.{leaf_of, Follows, Gives};
    ghost use Rattle.turtle_document.specs.Below.{HoleBelow};
    ghost use Rattle.turtle_read.specs.Rooms.{HasRoom};
    ghost use Rattle.turtle_read.specs.Readers.{config_of, inside, kept};

    // The first token of an object that fills a hole.
    #[inline(always)]
    pub(crate) fn begin_object(&mut self, token: Lexeme<'_>, hole: Hole) -> Result<(), TokenFault>
        requires room { HasRoom 1 (inside self.old) }
        requires hole { HoleBelow (2 ^ 31) hole }
        ensures moves { Follows token.entry.at result (config_of self.new) (inside self.new) (machine.begin_object token.entry.kind hole (leaf_of token.entry) self.old.outer (inside self.old)) }
        ensures kept { kept self.new ≡ kept self.old }
    {
        match quotes_of(token.kind) {
            Some(quotes) => {
                let text = turtle_value::string_text(self.alloc, quotes, token.text)?;
                self.expect(Expected::Suffix {
                    text,
                    at: token.at,
                    hole,
                });
                Ok(())
            }
            None => self.begin_short(token, hole),
        }
    }

    // The first token of an object that is no string.
    #[inline(always)]
    fn begin_short(&mut self, token: Lexeme<'_>, hole: Hole) -> Result<(), TokenFault>
        requires room { HasRoom 1 (inside self.old) }
        requires hole { HoleBelow (2 ^ 31) hole }
        ensures moves { Follows token.entry.at result (config_of self.new) (inside self.new) (machine.begin_short token.entry.kind hole (leaf_of token.entry) self.old.outer (inside self.old)) }
        ensures kept { kept self.new ≡ kept self.old }
    {
        match short_term(self.alloc, &self.words, &mut self.shorts, token)? {
            Some(term) => self.fill(hole, token.at, term),
            None => self.begin_resource(token, hole),
        }
    }

    // The first token of an IRI or a blank node.
    #[inline(always)]
    pub(crate) fn begin_resource(&mut self, token: Lexeme<'_>, hole: Hole) -> Result<(), TokenFault>
        requires room { HasRoom 1 (inside self.old) }
        requires hole { HoleBelow (2 ^ 31) hole }
        ensures moves { Follows token.entry.at result (config_of self.new) (inside self.new) (machine.begin_resource token.entry.kind hole (leaf_of token.entry) self.old.outer (inside self.old)) }
        ensures kept { kept self.new ≡ kept self.old }
    {
        // A statement's subject is mostly a new one.
        let recurs = match hole {
            Hole::Subject => Recurs::Seldom,
            _ => Recurs::Often,
        };
        match self.environment.iri_of(token, recurs)? {
            Some(iri) => self.fill(hole, token.at, Term::Iri(iri)),
            None => self.begin_node(token, hole),
        }
    }

    // The first token of a blank node.
    fn begin_node(&mut self, token: Lexeme<'_>, hole: Hole) -> Result<(), TokenFault>
        requires room { HasRoom 1 (inside self.old) }
        requires hole { HoleBelow (2 ^ 31) hole }
        ensures moves { Follows token.entry.at result (config_of self.new) (inside self.new) (machine.begin_node token.entry.kind hole (leaf_of token.entry) self.old.outer (inside self.old)) }
        ensures kept { kept self.new ≡ kept self.old }
    {
        match token.kind {
            TokenKind::BlankLabel => self.begin_label(token, hole),
            TokenKind::OpenSquare => self.open_square(token, hole),
            TokenKind::OpenRound => self.open_round(token, hole),
            _ => Err(TokenFault::Syntax(token.at)),
        }
    }

    // The label of a blank node.
    fn begin_label(&mut self, token: Lexeme<'_>, hole: Hole) -> Result<(), TokenFault>
        requires room { HasRoom 1 (inside self.old) }
        requires hole { HoleBelow (2 ^ 31) hole }
        ensures moves { Follows token.entry.at result (config_of self.new) (inside self.new) (machine.begin_node kinds.BlankLabel hole (leaf_of token.entry) self.old.outer (inside self.old)) }
        ensures kept { kept self.new ≡ kept self.old }
    {
        let term = self.environment.labelled(token.text)?;
        self.fill(hole, token.at, term)
    }

    // The bracket of a property list or of a node without one.
    fn open_square(&mut self, token: Lexeme<'_>, hole: Hole) -> Result<(), TokenFault>
        requires room { HasRoom 1 (inside self.old) }
        requires hole { HoleBelow (2 ^ 31) hole }
        ensures moves { Follows token.entry.at result (config_of self.new) (inside self.new) (machine.begin_node kinds.OpenSquare hole (leaf_of token.entry) self.old.outer (inside self.old)) }
        ensures kept { kept self.new ≡ kept self.old }
    {
        let node = self.new_node(token.at)?;
        self.outer.push(hole)?;
        self.expect(Expected::Property { node });
        Ok(())
    }

    // The number of a node whose bracket opens at a place.
    fn new_node(&mut self, at: usize) -> Result<u32, TokenFault>
        requires room { HasRoom 1 (inside self.old) }
        ensures value { Gives (λ _. inside self.old) result (may_open at (length self.old.outer) (inside self.old)) }
        ensures node { IfOk result (λ node. node ≡ (inside self.old).blanks) }
        ensures next { OnOk result (inside self.new ≡ numbered (inside self.old)) }
        ensures same { config_of self.new ≡ config_of self.old }
        ensures kept { kept self.new ≡ kept self.old }
    {
        self.may_open(at)?;
        Ok(self.environment.number())
    }

    // The bracket of a collection.
    fn open_round(&mut self, token: Lexeme<'_>, hole: Hole) -> Result<(), TokenFault>
        requires hole { HoleBelow (2 ^ 31) hole }
        ensures moves { Follows token.entry.at result (config_of self.new) (inside self.new) (machine.begin_node kinds.OpenRound hole (leaf_of token.entry) self.old.outer (inside self.old)) }
        ensures kept { kept self.new ≡ kept self.old }
    {
        self.may_open(token.at)?;
        self.outer.push(hole)?;
        self.expect(Expected::Item {
            chain: Chain::Empty,
        });
        Ok(())
    }
}
