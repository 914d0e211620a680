use crate::kinds::begins_object;
use crate::lexeme::Lexeme;
use crate::reader::Reader;
use crate::recent::Recurs;
use crate::token_fault::TokenFault;
use lv_base::{NoMemory, Text};
use triple_store::Term;
use turtle_document::{Expected, Hole};
use turtle_grammar::TokenKind;

impl Reader {
    ghost use Rattle.std.specs.Prelude.{◌≡◌, ◌≢◌, Some, Ok, IfOk, IfErr, ◌^◌};
    ghost use Rattle.triple_store.specs.declared.term.Term.TheVariants as terms;
    ghost use Rattle.turtle_document.specs.Vocabulary.{rdf_lang_string};
    ghost use Rattle.turtle_grammar.specs.Value.{tag_of};
    ghost use Rattle.turtle_grammar.specs.declared.token.TokenKind.TheVariants as kinds;
    ghost use Rattle.turtle_read.specs.Moves as machine;
    ghost use Rattle.turtle_read.specs.Faults.{leaf_of, Follows, Leads, NamesNone};
    ghost use Rattle.turtle_document.specs.Below.{HoleBelow};
    ghost use Rattle.turtle_read.specs.Rooms.{HasRoom};
    ghost use Rattle.turtle_read.specs.Readers.{config_of, inside, kept};

    // What may follow a string: a language tag, `^^`, or what follows an object that is the string alone.
    pub(crate) fn after_string(
        &mut self,
        token: Lexeme<'_>,
        text: Text,
        at: usize,
        hole: Hole,
    ) -> Result<(), TokenFault>
        requires room { HasRoom 2 (inside self.old) }
        requires hole { HoleBelow (2 ^ 31) hole }
        ensures moves { Follows token.entry.at result (config_of self.new) (inside self.new) (machine.after_string token.entry.kind (leaf_of token.entry) text at hole self.old.outer (inside self.old)) }
        ensures kept { kept self.new ≡ kept self.old }
    {
        match token.kind {
            TokenKind::LanguageTag => self.tagged_by(token, text, hole),
            TokenKind::DoubleCaret => {
                self.expect(Expected::Datatype { text, hole });
                Ok(())
            }
            _ => self.end_string(token, text, at, hole),
        }
    }

    // The language tag of a string.
    fn tagged_by(&mut self, token: Lexeme<'_>, text: Text, hole: Hole) -> Result<(), TokenFault>
        requires hole { HoleBelow (2 ^ 31) hole }
        ensures moves { Leads result (config_of self.new) (inside self.new) (machine.filled hole token.entry.at (terms.Literal text rdf_lang_string (tag_of token.entry.text.now)) self.old.outer (inside self.old)) }
        ensures kept { kept self.new ≡ kept self.old }
    {
        let term = self.tagged(token, text)?;
        self.fill(hole, token.at, term)
    }

    // A string with its language tag.
    fn tagged(&self, token: Lexeme<'_>, text: Text) -> Result<Term, NoMemory>
        ensures { IfOk result (λ term. term ≡ terms.Literal text rdf_lang_string (tag_of token.entry.text.now)) }
    {
        let lang = turtle_value::tag_text(self.alloc, token.text)?;
        self.words.tagged(text, lang)
    }

    // A string fills its hole alone, and the token is what follows it.
    fn end_string(
        &mut self,
        token: Lexeme<'_>,
        text: Text,
        at: usize,
        hole: Hole,
    ) -> Result<(), TokenFault>
        requires room { HasRoom 2 (inside self.old) }
        requires hole { HoleBelow (2 ^ 31) hole }
        requires untagged { token.kind ≢ kinds.LanguageTag }
        requires untyped { token.kind ≢ kinds.DoubleCaret }
        ensures moves { Follows token.entry.at result (config_of self.new) (inside self.new) (machine.after_string token.entry.kind (leaf_of token.entry) text at hole self.old.outer (inside self.old)) }
        ensures kept { kept self.new ≡ kept self.old }
    {
        if !self.follows(&hole, token.kind) {
            return Err(TokenFault::Syntax(token.at));
        }
        self.fill_plain(hole, at, text)?;
        let next = self.take_next();
        self.plain_step(token, next)
    }

    // Whether a token can follow an object that fills a hole.
    fn follows(&self, hole: &Hole, kind: TokenKind) -> bool
        ensures { result ≡ machine.follows hole.now self.now.outer kind }
    {
        match hole {
            Hole::Object { .. } => match kind {
                TokenKind::Comma | TokenKind::Semicolon => true,
                TokenKind::Dot => self.outer.is_empty(),
                TokenKind::CloseSquare => !self.outer.is_empty(),
                _ => false,
            },
            Hole::Item { .. } => match kind {
                TokenKind::CloseRound => true,
                _ => begins_object(kind),
            },
            Hole::Subject | Hole::ListedSubject => false,
        }
    }

    // The datatype of a string.
    pub(crate) fn typed_by(
        &mut self,
        token: Lexeme<'_>,
        text: Text,
        hole: Hole,
    ) -> Result<(), TokenFault>
        requires hole { HoleBelow (2 ^ 31) hole }
        ensures moves { Follows token.entry.at result (config_of self.new) (inside self.new) (machine.typed_by token.entry.kind (leaf_of token.entry) text hole self.old.outer (inside self.old)) }
        ensures kept { kept self.new ≡ kept self.old }
    {
        let datatype = self.datatype(token)?;
        self.fill_typed(hole, token.at, text, datatype)
    }

    // The IRI of a datatype.
    fn datatype(&mut self, token: Lexeme<'_>) -> Result<Text, TokenFault>
        ensures ok { IfOk result (λ iri. machine.named token.entry.kind (leaf_of token.entry) (inside self.old) ≡ Ok (Some iri)) }
        ensures err { IfErr result (NamesNone token.entry.at token.entry.kind (leaf_of token.entry) (inside self.old)) }
        ensures state { inside self.new ≡ inside self.old }
        ensures same { config_of self.new ≡ config_of self.old }
        ensures kept { kept self.new ≡ kept self.old }
    {
        match self.environment.iri_of(token, Recurs::Often)? {
            Some(datatype) => Ok(datatype),
            None => Err(TokenFault::Syntax(token.at)),
        }
    }
}
