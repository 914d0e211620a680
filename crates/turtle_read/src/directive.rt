ghost use Rattle.std.specs.Prelude.{◌≡◌};
ghost use Rattle.turtle_document.specs.Machine as document;

use crate::lexeme::Lexeme;
use crate::reader::Reader;
use crate::token_fault::TokenFault;
use lv_base::Text;
use turtle_document::{Expected, Hole};
use turtle_grammar::TokenKind;

// What comes next after a directive's IRI.
fn after_iri(dot: bool) -> Expected
    ensures { result ≡ document.after_iri dot }
{
    if dot {
        Expected::DirectiveDot
    } else {
        Expected::Statement
    }
}

impl Reader {
    ghost use Rattle.std.specs.Prelude.{◌≡◌};
    ghost use Rattle.turtle_read.specs.Moves as machine;
    ghost use Rattle.turtle_read.specs.Faults.{leaf_of, Follows};
    ghost use Rattle.turtle_read.specs.Rooms.{HasRoom};
    ghost use Rattle.turtle_read.specs.Readers.{config_of, inside, kept};

    // A statement's first token.
    pub(crate) fn at_statement(&mut self, token: Lexeme<'_>) -> Result<(), TokenFault>
        requires room { HasRoom 1 (inside self.old) }
        ensures moves { Follows token.entry.at result (config_of self.new) (inside self.new) (machine.at_statement token.entry.kind (leaf_of token.entry) self.old.outer (inside self.old)) }
        ensures kept { kept self.new ≡ kept self.old }
    {
        match token.kind {
            TokenKind::LanguageTag => self.at_directive(token),
            TokenKind::Prefix => {
                self.expect(Expected::Prefix { dot: false });
                Ok(())
            }
            TokenKind::Base => {
                self.expect(Expected::Base { dot: false });
                Ok(())
            }
            _ => self.begin_resource(token, Hole::Subject),
        }
    }

    // `@prefix` or `@base`: they are tokens of the form of a language tag.
    fn at_directive(&mut self, token: Lexeme<'_>) -> Result<(), TokenFault>
        ensures moves { Follows token.entry.at result (config_of self.new) (inside self.new) (machine.at_directive (leaf_of token.entry).text self.old.outer (inside self.old)) }
        ensures kept { kept self.new ≡ kept self.old }
    {
        if token.text == "@prefix" {
            self.expect(Expected::Prefix { dot: true });
            Ok(())
        } else if token.text == "@base" {
            self.expect(Expected::Base { dot: true });
            Ok(())
        } else {
            Err(TokenFault::Syntax(token.at))
        }
    }

    // The prefix of a directive.
    pub(crate) fn at_prefix(&mut self, token: Lexeme<'_>, dot: bool) -> Result<(), TokenFault>
        ensures moves { Follows token.entry.at result (config_of self.new) (inside self.new) (machine.at_prefix token.entry.kind (leaf_of token.entry) dot self.old.outer (inside self.old)) }
        ensures kept { kept self.new ≡ kept self.old }
    {
        match token.kind {
            TokenKind::Namespace => {
                let prefix = Text::from_str(self.alloc, turtle_value::prefix_text(token.text))?;
                self.expect(Expected::Namespace { dot, prefix });
                Ok(())
            }
            _ => Err(TokenFault::Syntax(token.at)),
        }
    }

    // The IRI for a prefix.
    pub(crate) fn at_namespace(
        &mut self,
        token: Lexeme<'_>,
        dot: bool,
        prefix: Text,
    ) -> Result<(), TokenFault>
        ensures moves { Follows token.entry.at result (config_of self.new) (inside self.new) (machine.at_namespace token.entry.kind (leaf_of token.entry) dot prefix self.old.outer (inside self.old)) }
        ensures kept { kept self.new ≡ kept self.old }
    {
        match token.kind {
            TokenKind::Iri => {
                let namespace = self.environment.absolute(token)?;
                self.environment.bind(prefix, namespace)?;
                self.expect(after_iri(dot));
                Ok(())
            }
            _ => Err(TokenFault::Syntax(token.at)),
        }
    }

    // The IRI of a base.
    pub(crate) fn at_base(&mut self, token: Lexeme<'_>, dot: bool) -> Result<(), TokenFault>
        ensures moves { Follows token.entry.at result (config_of self.new) (inside self.new) (machine.at_base token.entry.kind (leaf_of token.entry) dot self.old.outer (inside self.old)) }
        ensures kept { kept self.new ≡ kept self.old }
    {
        match token.kind {
            TokenKind::Iri => {
                self.environment.set_base(token)?;
                self.expect(after_iri(dot));
                Ok(())
            }
            _ => Err(TokenFault::Syntax(token.at)),
        }
    }

    // The dot of a directive.
    pub(crate) fn at_dot(&mut self, token: Lexeme<'_>) -> Result<(), TokenFault>
        ensures moves { Follows token.entry.at result (config_of self.new) (inside self.new) (machine.at_dot token.entry.kind self.old.outer (inside self.old)) }
        ensures kept { kept self.new ≡ kept self.old }
    {
        match token.kind {
            TokenKind::Dot => {
                self.expect(Expected::Statement);
                Ok(())
            }
            _ => Err(TokenFault::Syntax(token.at)),
        }
    }
}
