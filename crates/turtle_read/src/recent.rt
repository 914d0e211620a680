ghost use Rattle.std.specs.Prelude.{◌≡◌, ◌⊎◌, IfSome, Contains, Some, IfOk};
ghost use Rattle.turtle_read.specs.Recents.{HoldNothing};

use crate::lexeme::Lexeme;
use crate::slot::{empty_slots, slot_of};
use lv_base::{NoMemory, Text};
use std::alloc::Global;
use std::marker::Model;
use turtle_grammar::TokenKind;

/// Whether such names mostly come again.
#[derive(Clone, Copy, PartialEq, Eq)]
pub enum Recurs {
    Often,
    Seldom,
}

/// A name, as its token writes it, and its IRI.
#[derive(Drop)]
pub struct Known {
    kind: TokenKind,
    text: Text,
    iri: Text,
}

/// The IRIs of names that came lately: a name that comes again shares the text of its IRI, and nothing is resolved. A name has one
/// slot, and takes it from the name that had it. Contracts see the list of the slots.
#[derive(Drop)]
pub struct Recent {
    slots: Vec<Option<Known>>,
}

impl Model for Recent {
    ghost use Rattle.std.specs.Prelude.{List, Option};
    ghost use Rattle.turtle_read.specs.declared.recent.Known.{Known};

    ghost Value = { List (Option Known) };

    ghost view = { λ recent. recent.slots.items };
}

impl Recent {
    /// Without a name.
    pub fn new(alloc: Global) -> Result<Self, NoMemory>
        ensures { IfOk result HoldNothing }
    {
        let slots = empty_slots(alloc)?;
        Ok(Recent { slots })
    }

    /// Forgets all names.
    pub fn clear(&mut self)
        ensures { HoldNothing self.new }
    {
        for slot in self.slots.iter_mut() {
            *slot = None;
        }
    }

    #[inline(always)]
    /// The IRI of a name, if it is kept.
    pub fn find(&self, token: Lexeme<'_>) -> Option<&Text>
        ensures { IfSome result (λ iri. Contains self.now (Some (record { kind = token.entry.kind; text = token.entry.text.now; iri = iri.now }))) }
    {
        let known = self.slots.get(slot_of(token.text))?.as_ref()?;
        if known.kind == token.kind && known.text.as_str() == token.text {
            Some(&known.iri)
        } else {
            None
        }
    }

    #[inline(never)]
    /// Keeps the IRI of a name.
    pub fn keep(&mut self, alloc: Global, token: Lexeme<'_>, iri: Text) -> Result<(), NoMemory>
        ensures { (k : Known) → Contains self.new (Some k) → Contains self.old (Some k) ⊎ (k ≡ record { kind = token.entry.kind; text = token.entry.text.now; iri = iri }) }
    {
        let text = Text::from_str(alloc, token.text)?;
        if let Some(slot) = self.slots.get_mut(slot_of(token.text)) {
            *slot = Some(Known {
                kind: token.kind,
                text,
                iri,
            });
        }
        Ok(())
    }
}
