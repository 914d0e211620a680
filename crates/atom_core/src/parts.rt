ghost use Rattle.std.specs.Prelude.{◌≡◌, ◌≤◌, ◌<◌, Some, IfSome, IfNone, length, take};
ghost use Rattle.atom_core.specs.Value.{Parts};
ghost use Rattle.atom_core.specs.Atoms.{SpellAtoms, AreAtoms};
ghost use Rattle.atom_core.specs.Iterating.{TakesFirst, NextAtom};

use crate::number::u32_at;
use crate::part::padded;
use crate::view::{AtomView, behind};
use std::marker::Model;

/// The atoms of a tuple, in order. Contracts see it as the bytes that are left.
#[derive(Drop)]
pub struct AtomParts<'a> {
    rest: &'a [u8],
    ghost spelled: { ∥ AreAtoms rest.now ∥₁ },
}

impl<'a> Model for AtomParts<'a> {
    ghost use Rattle.std.specs.Prelude.{List, ℕ};

    ghost Value = { List ℕ };

    ghost view = { λ parts. parts.rest.now };
}

/// The first so many bytes.
pub fn front(bytes: &[u8], end: usize) -> &[u8]
    requires { end ≤ length bytes.now }
    ensures { result.now ≡ take end bytes.now }
{
    &bytes[..end]
}

impl<'a> AtomParts<'a> {
    /// The atoms that bytes spell.
    pub fn over(bytes: &'a [u8]) -> Self
        requires { ∥ AreAtoms bytes.now ∥₁ }
        ensures { result ≡ bytes.now }
    {
        AtomParts { rest: bytes }
    }
}

/// The first of some atoms, and the bytes of the others.
fn cut(bytes: &[u8]) -> Option<(AtomView<'_>, &[u8])>
    requires { ∥ AreAtoms bytes.now ∥₁ }
    ensures none { IfNone result (length bytes.now ≡ 0) }
    ensures first { IfSome result (λ x. (parts : Parts) → SpellAtoms bytes.now parts → TakesFirst parts (Some x.0) x.1.now) }
    ensures rest { IfSome result (λ x. ∥ AreAtoms x.1.now ∥₁) }
    ensures shorter { IfSome result (λ x. length x.1.now < length bytes.now) }
{
    if bytes.is_empty() {
        return None;
    }
    let end = 8 + u32_at(bytes, 0) as usize;
    let view = AtomView::over(front(bytes, end));
    Some((view, behind(bytes, padded(end))))
}

impl<'a> Iterator for AtomParts<'a> {
    ghost use Rattle.std.specs.Iterator.{item_count};

    type Item = AtomView<'a>;

    ghost next_gives = { NextAtom };

    ghost remaining = { item_count (λ left. left) };

    fn next(&mut self) -> Option<AtomView<'a>> {
        let (view, rest) = cut(self.rest)?;
        self.rest = rest;
        Some(view)
    }
}
