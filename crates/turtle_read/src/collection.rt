ghost use Rattle.std.specs.Prelude.{◌≡◌};
ghost use Rattle.turtle_document.specs.Machine as document;

use crate::kinds::begins_object;
use crate::lexeme::Lexeme;
use crate::reader::Reader;
use crate::recent::Recurs;
use crate::token_fault::TokenFault;
use lv_base::NoMemory;
use triple_store::Term;
use turtle_document::{Chain, Hole};
use turtle_grammar::TokenKind;

// The first node of a collection, whose next item has this node.
fn first_of(chain: Chain, node: u32) -> u32
    ensures { result ≡ document.first_of chain node }
{
    match chain {
        Chain::Empty => node,
        Chain::Nodes { first, .. } => first,
    }
}

impl Reader {
    ghost use Rattle.std.specs.Prelude.{◌≡◌, length, IfOk, ◌^◌, ◌<◌};
    ghost use Rattle.turtle_document.specs.Machine.{collection_of};
    ghost use Rattle.turtle_read.specs.Moves as machine;
    ghost use Rattle.turtle_read.specs.Faults.{leaf_of, Follows, Gives};
    ghost use Rattle.turtle_document.specs.Below.{ChainBelow};
    ghost use Rattle.turtle_read.specs.Rooms.{HasRoom};
    ghost use Rattle.turtle_read.specs.Readers.{config_of, inside, kept};

    // An item of a collection, or its end.
    pub(crate) fn in_collection(
        &mut self,
        token: Lexeme<'_>,
        chain: Chain,
    ) -> Result<(), TokenFault>
        requires room { HasRoom 2 (inside self.old) }
        requires chain { ChainBelow (2 ^ 31) chain }
        ensures moves { Follows token.entry.at result (config_of self.new) (inside self.new) (machine.in_collection token.entry.kind (leaf_of token.entry) chain self.old.outer (inside self.old)) }
        ensures kept { kept self.new ≡ kept self.old }
    {
        match token.kind {
            TokenKind::CloseRound => {
                self.end_chain(chain, token.at)?;
                let term = self.collection_term(chain)?;
                self.close(token.at, term)
            }
            kind => {
                if begins_object(kind) {
                    self.begin_item(token, chain)
                } else {
                    Err(TokenFault::Syntax(token.at))
                }
            }
        }
    }

    // What a collection is that ends here.
    fn collection_term(&self, chain: Chain) -> Result<Term, NoMemory>
        ensures { IfOk result (λ term. term ≡ collection_of chain) }
    {
        match chain {
            Chain::Empty => self.words.nil(),
            Chain::Nodes { first, .. } => Ok(Term::Blank(first)),
        }
    }

    // The last node of a collection has nothing as its rest.
    fn end_chain(&mut self, chain: Chain, at: usize) -> Result<(), TokenFault>
        requires chain { ChainBelow (2 ^ 31) chain }
        ensures value { Gives (λ _. inside self.new) result (machine.ended chain at (inside self.old)) }
        ensures same { config_of self.new ≡ config_of self.old }
        ensures kept { kept self.new ≡ kept self.old }
    {
        let Chain::Nodes { last, .. } = chain else {
            return Ok(());
        };
        let rest = self.words.rest()?;
        let nil = self.words.nil()?;
        self.environment.add(at, Term::Blank(last), rest, nil)
    }

    // The last node of a collection so far has the next one as its rest.
    fn link(&mut self, chain: Chain, at: usize, node: u32) -> Result<(), TokenFault>
        requires chain { ChainBelow (2 ^ 31) chain }
        requires node { node < 2 ^ 31 }
        ensures value { Gives (λ _. inside self.new) result (machine.linked chain at node (inside self.old)) }
        ensures same { config_of self.new ≡ config_of self.old }
        ensures kept { kept self.new ≡ kept self.old }
    {
        let Chain::Nodes { last, .. } = chain else {
            return Ok(());
        };
        let rest = self.words.rest()?;
        self.environment
            .add(at, Term::Blank(last), rest, Term::Blank(node))
    }

    // An item's first token, which has its fault before the item has its node.
    fn begin_item(&mut self, token: Lexeme<'_>, chain: Chain) -> Result<(), TokenFault>
        requires room { HasRoom 2 (inside self.old) }
        requires chain { ChainBelow (2 ^ 31) chain }
        ensures moves { Follows token.entry.at result (config_of self.new) (inside self.new) (machine.begin_item token.entry.kind (leaf_of token.entry) chain self.old.outer (inside self.old)) }
        ensures kept { kept self.new ≡ kept self.old }
    {
        self.may_start(token)?;
        let node = self.environment.number();
        self.link(chain, token.at, node)?;
        let first = first_of(chain, node);
        self.begin_object(token, Hole::Item { first, node })
    }

    // An object may start with a token that begins one.
    fn may_start(&mut self, token: Lexeme<'_>) -> Result<(), TokenFault>
        ensures value { Gives (λ _. inside self.old) result (machine.started_by token.entry.kind (leaf_of token.entry) (length self.old.outer) (inside self.old)) }
        ensures state { inside self.new ≡ inside self.old }
        ensures same { config_of self.new ≡ config_of self.old }
        ensures kept { kept self.new ≡ kept self.old }
    {
        match token.kind {
            TokenKind::OpenSquare | TokenKind::OpenRound => self.may_open(token.at),
            _ => {
                self.environment.iri_of(token, Recurs::Often)?;
                Ok(())
            }
        }
    }
}
