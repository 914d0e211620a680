ghost use Rattle.std.specs.Prelude.{◌≡◌, ◌≤◌, true, is_some, length};
ghost use Rattle.iri_resolve.specs.Components.{scheme_of};
ghost use Rattle.indexmap.specs.IndexMap.{get};
ghost use Rattle.std.specs.Str.{bytes_eq};
ghost use Rattle.triple_store.specs.declared.fault.TheConstants.{MOST_ROWS};
ghost use Rattle.turtle_read.specs.Recents.{AreKnown};

use crate::lexeme::Lexeme;
use crate::name::Name;
use crate::recent::{Recent, Recurs};
use crate::token_fault::TokenFault;
use indexmap::IndexMap;
use iri_resolve::{IriFault, resolve};
use lv_base::{NoMemory, Text};
use seeded_hash::SeededHash;
use std::alloc::Global;
use std::mem;
use triple_store::{Store, StoreFault, Term, Triple};
use turtle_grammar::TokenKind;

/// What a statement is read in: the base, what prefixes and labels stand for, the next number of a blank node, and the triples.
#[derive(Drop)]
pub struct Environment {
    alloc: Global,
    base: Text,
    prefixes: IndexMap<Text, Text, SeededHash>,
    labels: IndexMap<Text, u32, SeededHash>,
    blanks: u32,
    store: Store,
    // the rows that were there before the document's
    before: usize,
    // what names stand for under this base and these prefixes
    recent: Recent,
    ghost absolute: { is_some (scheme_of base) ≡ true },
    ghost known: { AreKnown base (get bytes_eq prefixes) recent },
    ghost held: { before ≤ length store },
    ghost room: { length store ≤ MOST_ROWS },
}

impl Environment {
    ghost use Rattle.std.specs.Prelude.{◌≡◌, ◌<◌, ◌^◌, true, is_some, IfOk, OnOk};
    ghost use Rattle.turtle_document.specs.Below.{IsBelow};
    ghost use Rattle.turtle_read.specs.Rooms.{HasRoom};
    ghost use Rattle.iri_resolve.specs.Components.{scheme_of};
    ghost use Rattle.turtle_document.specs.Meaning as meaning;
    ghost use Rattle.turtle_read.specs.Moves as moves;
    ghost use Rattle.turtle_document.specs.Meaning.{numbered, beginning};
    ghost use Rattle.turtle_grammar.specs.Value.{reference_of};
    ghost use Rattle.turtle_read.specs.Faults.{leaf_of, Gives};
    ghost use Rattle.turtle_read.specs.Recents.{HoldNothing};
    ghost use Rattle.turtle_read.specs.States.{state_of, with_prefix, kept_of};

    #[tactic(auto, using(crate::proofs::Adds::all_kept, crate::proofs::Recents::none_known), unfolding(crate::specs::States::kept_of))]
    /// The environment of a document's beginning.
    pub fn new(alloc: Global, base: Text, store: Store, hashing: SeededHash, recent: Recent) -> Self
        requires absolute { is_some (scheme_of base) ≡ true }
        requires fresh { HoldNothing recent }
        ensures state { state_of result ≡ beginning base store }
        ensures kept { kept_of result ≡ store }
    {
        let blanks = store.blanks();
        let before = store.count() as usize;
        Environment {
            alloc,
            base,
            prefixes: IndexMap::with_hasher(alloc, hashing),
            labels: IndexMap::with_hasher(alloc, hashing),
            blanks,
            store,
            before,
            recent,
        }
    }

    #[tactic(auto, using(crate::proofs::Adds::kept_added, crate::proofs::Adds::held_added, crate::proofs::Adds::kept_same), unfolding(crate::specs::States::kept_of))]
    /// Adds a triple, once its object has been read up to the token at `at`.
    pub fn add(&mut self, at: usize, s: Term, p: Term, o: Term) -> Result<(), TokenFault>
        requires s { IsBelow (2 ^ 31) s }
        requires p { IsBelow (2 ^ 31) p }
        requires o { IsBelow (2 ^ 31) o }
        ensures value { Gives (λ _. state_of self.new) result (moves.add at s p o (state_of self.old)) }
        ensures kept { kept_of self.new ≡ kept_of self.old }
    {
        match self.store.add(Triple { s, p, o }) {
            Ok(_) => Ok(()),
            Err(StoreFault::Full) => Err(TokenFault::StoreFull(at)),
            Err(StoreFault::NoMemory) => Err(TokenFault::NoMemory),
        }
    }

    #[tactic(auto, unfolding(crate::specs::States::kept_of))]
    /// The number of a new blank node.
    pub fn number(&mut self) -> u32
        requires { self.old.blanks < 2 ^ 31 }
        ensures number { result ≡ self.old.blanks }
        ensures next { state_of self.new ≡ numbered (state_of self.old) }
        ensures kept { kept_of self.new ≡ kept_of self.old }
    {
        let node = self.blanks;
        self.blanks = node + 1;
        node
    }

    #[tactic(auto, unfolding(crate::specs::States::kept_of))]
    /// The blank node of a label, numbered at its first use.
    pub fn labelled(&mut self, label: &str) -> Result<Term, NoMemory>
        requires { HasRoom 1 (state_of self.old) }
        ensures small { IfOk result (IsBelow (2 ^ 31)) }
        ensures value { IfOk result (λ term. meaning.labelled label.now (state_of self.old) ≡ meaning.read term (state_of self.new)) }
        ensures kept { kept_of self.new ≡ kept_of self.old }
    {
        if let Some(number) = self.labels.get(Name(label)) {
            return Ok(Term::Blank(*number));
        }
        let number = self.number();
        let label = Text::from_str(self.alloc, label)?;
        self.labels.insert(label, number)?;
        Ok(Term::Blank(number))
    }

    #[tactic(auto, using(crate::proofs::Recents::none_known), unfolding(crate::specs::States::kept_of))]
    /// A prefix stands for a namespace from here on.
    pub fn bind(&mut self, prefix: Text, namespace: Text) -> Result<(), NoMemory>
        ensures value { OnOk result (state_of self.new ≡ with_prefix prefix namespace (state_of self.old)) }
        ensures kept { kept_of self.new ≡ kept_of self.old }
    {
        self.recent.clear();
        self.prefixes.insert(prefix, namespace)?;
        Ok(())
    }

    #[tactic(auto, using(crate::proofs::Recents::none_known), unfolding(crate::specs::States::kept_of, crate::specs::Moves::based_on, crate::specs::Moves::absolute))]
    /// The IRI of a reference is the base from here on.
    pub fn set_base(&mut self, token: Lexeme<'_>) -> Result<(), TokenFault>
        ensures value { Gives (λ _. state_of self.new) result (moves.based_on (leaf_of token.entry) (state_of self.old)) }
        ensures kept { kept_of self.new ≡ kept_of self.old }
    {
        let base = self.absolute(token)?;
        self.recent.clear();
        self.base = base;
        Ok(())
    }

    /// The IRI of a reference, seen from the base.
    pub fn absolute(&self, token: Lexeme<'_>) -> Result<Text, TokenFault>
        ensures value { Gives (λ iri. iri) result (moves.absolute self.now.base (leaf_of token.entry)) }
        ensures scheme { IfOk result (λ iri. is_some (scheme_of iri) ≡ true) }
    {
        match turtle_value::plain_reference(token.text) {
            Some(reference) => self.seen(token, reference),
            None => {
                let reference = turtle_value::reference_text(self.alloc, token.text)?;
                self.seen(token, reference.as_str())
            }
        }
    }

    // The IRI of a reference that a token writes.
    fn seen(&self, token: Lexeme<'_>, reference: &str) -> Result<Text, TokenFault>
        requires { reference.now ≡ reference_of token.text.now }
        ensures value { Gives (λ iri. iri) result (moves.absolute self.now.base (leaf_of token.entry)) }
        ensures scheme { IfOk result (λ iri. is_some (scheme_of iri) ≡ true) }
    {
        match resolve(self.alloc, &self.base, reference.as_bytes()) {
            Ok(iri) => Ok(iri),
            Err(IriFault::BadChar(_)) => Err(TokenFault::BadIri(token.at)),
            Err(IriFault::NotAbsoluteBase) => unreachable!(),
            Err(IriFault::NoMemory) => Err(TokenFault::NoMemory),
        }
    }

    #[tactic(auto, unfolding(crate::specs::Moves::expanded))]
    /// The IRI of a prefixed name.
    fn expanded(&self, token: Lexeme<'_>) -> Result<Text, TokenFault>
        ensures { Gives (λ iri. iri) result (moves.expanded (leaf_of token.entry) (state_of self.now)) }
    {
        let prefix = turtle_value::prefix_text(token.text);
        match self.prefixes.get(Name(prefix)) {
            Some(namespace) => Ok(turtle_value::expand(self.alloc, namespace, token.text)?),
            None => Err(TokenFault::NoPrefix(token.at)),
        }
    }

    #[inline(always)]
    #[tactic(auto, unfolding(crate::specs::States::kept_of))]
    /// The IRI that a token names, `None` where it is no name. It is kept for the next time, if such names come often.
    pub fn iri_of(&mut self, token: Lexeme<'_>, recurs: Recurs) -> Result<Option<Text>, TokenFault>
        ensures value { Gives (λ iri. iri) result (moves.named token.entry.kind (leaf_of token.entry) (state_of self.old)) }
        ensures state { state_of self.new ≡ state_of self.old }
        ensures kept { kept_of self.new ≡ kept_of self.old }
    {
        if let Some(iri) = self.recent.find(token) {
            return Ok(Some(iri.clone()?));
        }
        let Some(iri) = self.named(token)? else {
            return Ok(None);
        };
        if recurs == Recurs::Seldom {
            return Ok(Some(iri));
        }
        self.recent.keep(self.alloc, token, iri.clone()?)?;
        Ok(Some(iri))
    }

    #[inline(never)]
    #[tactic(auto, unfolding(crate::specs::Moves::named, crate::specs::Moves::absolute, crate::specs::Moves::expanded))]
    // The same, of a name that isn't kept.
    fn named(&self, token: Lexeme<'_>) -> Result<Option<Text>, TokenFault>
        ensures { Gives (λ iri. iri) result (moves.named token.entry.kind (leaf_of token.entry) (state_of self.now)) }
    {
        match token.kind {
            TokenKind::Iri => Ok(Some(self.absolute(token)?)),
            TokenKind::PrefixedName | TokenKind::Namespace => Ok(Some(self.expanded(token)?)),
            _ => Ok(None),
        }
    }

    /// The store with the triples that were read.
    pub fn into_store(self) -> Store
        ensures { result ≡ (state_of self).rows }
    {
        let Environment {
            alloc: _,
            base,
            prefixes,
            labels,
            blanks: _,
            store,
            before: _,
            recent,
        } = self;
        mem::drop(base);
        mem::drop(prefixes);
        mem::drop(labels);
        mem::drop(recent);
        store
    }

    #[tactic(auto, unfolding(crate::specs::States::kept_of))]
    /// The store as it was before the document.
    pub fn into_old_store(self) -> Store
        ensures { result ≡ kept_of self }
    {
        let Environment {
            alloc: _,
            base,
            prefixes,
            labels,
            blanks: _,
            mut store,
            before,
            recent,
        } = self;
        mem::drop(base);
        mem::drop(prefixes);
        mem::drop(labels);
        mem::drop(recent);
        store.cut(before);
        store
    }
}
