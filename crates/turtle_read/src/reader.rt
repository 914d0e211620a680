ghost use Rattle.std.specs.Prelude.{◌≡◌};

use crate::environment::Environment;
use crate::holes::Holes;
use crate::lexeme::Lexeme;
use crate::shared::SharedTexts;
use crate::short_forms::ShortForms;
use crate::token_fault::TokenFault;
use std::alloc::Global;
use std::mem;
use triple_store::Store;
use turtle_document::{Chain, Expected, Hole};
use turtle_grammar::TokenKind;

/// Reads a document token by token. Its memory is what has to come next, and what each open bracket fills.
#[derive(Drop)]
pub struct Reader {
    pub(crate) alloc: Global,
    pub(crate) words: ShortForms,
    // numbers and truth values
    pub(crate) shorts: SharedTexts,
    pub(crate) environment: Environment,
    pub(crate) next: Expected,
    pub(crate) outer: Holes,
}

impl Reader {
    ghost use Rattle.std.specs.Prelude.{◌≡◌, [], IfOk, ◌^◌};
    ghost use Rattle.turtle_document.specs.declared.expected.Expected.TheVariants as expect;
    ghost use Rattle.turtle_read.specs.Moves as machine;
    ghost use Rattle.turtle_read.specs.Moves.{IsOuter};
    ghost use Rattle.turtle_read.specs.Faults.{leaf_of, Follows};
    ghost use Rattle.turtle_document.specs.Below.{NextBelow};
    ghost use Rattle.turtle_read.specs.Rooms.{HasRoom};
    ghost use Rattle.turtle_read.specs.Readers.{config_of, inside, kept};

    /// A reader before a document's first token.
    pub fn new(
        alloc: Global,
        words: ShortForms,
        shorts: SharedTexts,
        environment: Environment,
    ) -> Self
        ensures next { result.next ≡ expect.Statement }
        ensures outer { result.outer ≡ [] }
        ensures environment { result.environment ≡ environment }
    {
        Reader {
            alloc,
            words,
            shorts,
            environment,
            next: Expected::Statement,
            outer: Holes::new(alloc),
        }
    }

    /// The store with the triples that were read.
    pub fn into_store(self) -> Store
        ensures { result ≡ (inside self).rows }
    {
        let Reader {
            alloc: _,
            words,
            shorts,
            environment,
            next,
            outer,
        } = self;
        mem::drop(words);
        mem::drop(shorts);
        mem::drop(next);
        mem::drop(outer);
        environment.into_store()
    }

    /// The store as it was before the document.
    pub fn into_old_store(self) -> Store
        ensures { result ≡ kept self }
    {
        let Reader {
            alloc: _,
            words,
            shorts,
            environment,
            next,
            outer,
        } = self;
        mem::drop(words);
        mem::drop(shorts);
        mem::drop(next);
        mem::drop(outer);
        environment.into_old_store()
    }

    // What has to come next.
    #[inline(always)]
    pub(crate) fn expect(&mut self, next: Expected)
        ensures { self.new ≡ record self.old { next = next } }
    {
        mem::drop(mem::replace(&mut self.next, next));
    }

    // What has to come next. A statement stands in its place until the token is judged.
    #[inline(always)]
    pub(crate) fn take_next(&mut self) -> Expected
        ensures next { result ≡ self.old.next }
        ensures rest { self.new ≡ record self.old { next = expect.Statement } }
    {
        mem::replace(&mut self.next, Expected::Statement)
    }

    #[inline(always)]
    /// Reads one token more.
    pub fn step(&mut self, token: Lexeme<'_>) -> Result<(), TokenFault>
        requires next { NextBelow (2 ^ 31) self.old.next }
        requires room { HasRoom 2 (inside self.old) }
        ensures moves { Follows token.entry.at result (config_of self.new) (inside self.new) (machine.move (config_of self.old) token.entry.kind (leaf_of token.entry) (inside self.old)) }
        ensures kept { kept self.new ≡ kept self.old }
    {
        match self.take_next() {
            Expected::Suffix { text, at, hole } => self.after_string(token, text, at, hole),
            next => self.plain_step(token, next),
        }
    }

    // A token where no string waits for what follows it.
    #[inline(always)]
    pub(crate) fn plain_step(&mut self, token: Lexeme<'_>, next: Expected) -> Result<(), TokenFault>
        requires next { NextBelow (2 ^ 31) next }
        requires room { HasRoom 2 (inside self.old) }
        ensures moves { Follows token.entry.at result (config_of self.new) (inside self.new) (machine.plain_move next self.old.outer token.entry.kind (leaf_of token.entry) (inside self.old)) }
        ensures kept { kept self.new ≡ kept self.old }
    {
        match next {
            Expected::Verb { subject } => self.at_verb(token, subject),
            Expected::AfterSemicolon { subject } => self.after_semicolon(token, subject),
            Expected::AfterObject { subject, predicate } => {
                self.after_object(token, subject, predicate)
            }
            Expected::AfterListed { subject } => self.after_listed(token, subject),
            Expected::Object { subject, predicate } => {
                self.begin_object(token, Hole::Object { subject, predicate })
            }
            Expected::Item { chain } => self.in_collection(token, chain),
            Expected::Property { node } => self.in_brackets(token, node),
            Expected::Datatype { text, hole } => self.typed_by(token, text, hole),
            next => self.outer_step(token, next),
        }
    }

    // A token where no triples are open.
    #[inline(always)]
    fn outer_step(&mut self, token: Lexeme<'_>, next: Expected) -> Result<(), TokenFault>
        requires outer { IsOuter next }
        requires room { HasRoom 1 (inside self.old) }
        ensures moves { Follows token.entry.at result (config_of self.new) (inside self.new) (machine.plain_move next self.old.outer token.entry.kind (leaf_of token.entry) (inside self.old)) }
        ensures kept { kept self.new ≡ kept self.old }
    {
        match next {
            Expected::Statement => self.at_statement(token),
            Expected::Prefix { dot } => self.at_prefix(token, dot),
            Expected::Namespace { dot, prefix } => self.at_namespace(token, dot, prefix),
            Expected::Base { dot } => self.at_base(token, dot),
            Expected::DirectiveDot => self.at_dot(token),
            waits => {
                mem::drop(waits);
                Err(TokenFault::Syntax(token.at))
            }
        }
    }
}
