use crate::lexeme::Lexeme;
use crate::reader::Reader;
use crate::recent::Recurs;
use crate::token_fault::TokenFault;
use triple_store::Term;
use turtle_document::{Expected, Hole};
use turtle_grammar::TokenKind;

impl Reader {
    ghost use Rattle.std.specs.Prelude.{◌≡◌, ◌^◌, ◌<◌};
    ghost use Rattle.turtle_read.specs.Moves as machine;
    ghost use Rattle.turtle_read.specs.Faults.{leaf_of, Follows};
    ghost use Rattle.turtle_document.specs.Below.{IsBelow};
    ghost use Rattle.turtle_read.specs.Readers.{config_of, inside, kept};

    // A verb.
    #[inline(always)]
    pub(crate) fn at_verb(&mut self, token: Lexeme<'_>, subject: Term) -> Result<(), TokenFault>
        ensures moves { Follows token.entry.at result (config_of self.new) (inside self.new) (machine.at_verb token.entry.kind (leaf_of token.entry) subject self.old.outer (inside self.old)) }
        ensures kept { kept self.new ≡ kept self.old }
    {
        match self.environment.iri_of(token, Recurs::Often)? {
            Some(iri) => {
                self.expect(Expected::Object {
                    subject,
                    predicate: Term::Iri(iri),
                });
                Ok(())
            }
            None => self.at_a(token, subject),
        }
    }

    // A verb that is no name.
    fn at_a(&mut self, token: Lexeme<'_>, subject: Term) -> Result<(), TokenFault>
        ensures moves { Follows token.entry.at result (config_of self.new) (inside self.new) (machine.at_a token.entry.kind subject self.old.outer (inside self.old)) }
        ensures kept { kept self.new ≡ kept self.old }
    {
        match token.kind {
            TokenKind::A => {
                let predicate = self.words.kind()?;
                self.expect(Expected::Object { subject, predicate });
                Ok(())
            }
            _ => Err(TokenFault::Syntax(token.at)),
        }
    }

    // The end of what is said of a subject.
    fn at_end(&mut self, token: Lexeme<'_>, subject: Term) -> Result<(), TokenFault>
        requires subject { IsBelow (2 ^ 31) subject }
        ensures moves { Follows token.entry.at result (config_of self.new) (inside self.new) (machine.at_end token.entry.kind (leaf_of token.entry) subject self.old.outer (inside self.old)) }
        ensures kept { kept self.new ≡ kept self.old }
    {
        match token.kind {
            TokenKind::Dot => self.end_statement(token.at),
            TokenKind::CloseSquare => self.close(token.at, subject),
            _ => Err(TokenFault::Syntax(token.at)),
        }
    }

    // A statement's dot.
    fn end_statement(&mut self, at: usize) -> Result<(), TokenFault>
        ensures moves { Follows at result (config_of self.new) (inside self.new) (machine.end_statement self.old.outer (inside self.old)) }
        ensures kept { kept self.new ≡ kept self.old }
    {
        if self.outer.is_empty() {
            self.expect(Expected::Statement);
            Ok(())
        } else {
            Err(TokenFault::Syntax(at))
        }
    }

    // What may follow an object.
    #[inline(always)]
    pub(crate) fn after_object(
        &mut self,
        token: Lexeme<'_>,
        subject: Term,
        predicate: Term,
    ) -> Result<(), TokenFault>
        requires subject { IsBelow (2 ^ 31) subject }
        ensures moves { Follows token.entry.at result (config_of self.new) (inside self.new) (machine.after_object token.entry.kind (leaf_of token.entry) subject predicate self.old.outer (inside self.old)) }
        ensures kept { kept self.new ≡ kept self.old }
    {
        match token.kind {
            TokenKind::Comma => {
                self.expect(Expected::Object { subject, predicate });
                Ok(())
            }
            TokenKind::Semicolon => {
                self.expect(Expected::AfterSemicolon { subject });
                Ok(())
            }
            _ => self.at_end(token, subject),
        }
    }

    // What may follow a `;`.
    #[inline(always)]
    pub(crate) fn after_semicolon(
        &mut self,
        token: Lexeme<'_>,
        subject: Term,
    ) -> Result<(), TokenFault>
        requires subject { IsBelow (2 ^ 31) subject }
        ensures moves { Follows token.entry.at result (config_of self.new) (inside self.new) (machine.after_semicolon token.entry.kind (leaf_of token.entry) subject self.old.outer (inside self.old)) }
        ensures kept { kept self.new ≡ kept self.old }
    {
        match token.kind {
            TokenKind::Semicolon => {
                self.expect(Expected::AfterSemicolon { subject });
                Ok(())
            }
            TokenKind::Dot => self.at_end(token, subject),
            TokenKind::CloseSquare => self.at_end(token, subject),
            _ => self.at_verb(token, subject),
        }
    }

    // What may follow a property list in brackets that is a subject.
    pub(crate) fn after_listed(
        &mut self,
        token: Lexeme<'_>,
        subject: Term,
    ) -> Result<(), TokenFault>
        requires subject { IsBelow (2 ^ 31) subject }
        ensures moves { Follows token.entry.at result (config_of self.new) (inside self.new) (machine.after_listed token.entry.kind (leaf_of token.entry) subject self.old.outer (inside self.old)) }
        ensures kept { kept self.new ≡ kept self.old }
    {
        match token.kind {
            TokenKind::Dot => self.at_end(token, subject),
            TokenKind::CloseSquare => self.at_end(token, subject),
            _ => self.at_verb(token, subject),
        }
    }

    // A verb in brackets that were opened for a node, or their end.
    pub(crate) fn in_brackets(&mut self, token: Lexeme<'_>, node: u32) -> Result<(), TokenFault>
        requires node { node < 2 ^ 31 }
        ensures moves { Follows token.entry.at result (config_of self.new) (inside self.new) (machine.in_brackets token.entry.kind (leaf_of token.entry) node self.old.outer (inside self.old)) }
        ensures kept { kept self.new ≡ kept self.old }
    {
        let subject = Term::Blank(node);
        match token.kind {
            TokenKind::CloseSquare => self.close(token.at, subject),
            _ => {
                self.outer.list_subject()?;
                self.at_verb(token, subject)
            }
        }
    }
}
