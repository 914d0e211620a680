ghost use Rattle.std.specs.Prelude.{◌≡◌, ◌<◌, Some, IfSome, IfNone, length};
ghost use Rattle.atom_core.specs.Value.{Parts};
ghost use Rattle.atom_core.specs.Atoms.{SpellProperties, AreProperties};
ghost use Rattle.atom_core.specs.Iterating.{TakesProperty, NextProperty};

use crate::number::u32_at;
use crate::part::padded;
use crate::parts::front;
use crate::view::{AtomView, behind};
use std::marker::Model;

/// The properties of an object, in order: of each its key, its context and its atom. Contracts see it as the bytes that are left.
#[derive(Drop)]
pub struct AtomProperties<'a> {
    rest: &'a [u8],
    ghost spelled: { ∥ AreProperties rest.now ∥₁ },
}

impl<'a> Model for AtomProperties<'a> {
    ghost use Rattle.std.specs.Prelude.{List, ℕ};

    ghost Value = { List ℕ };

    ghost view = { λ properties. properties.rest.now };
}

impl<'a> AtomProperties<'a> {
    /// The properties that bytes spell.
    pub fn over(bytes: &'a [u8]) -> Self
        requires { ∥ AreProperties bytes.now ∥₁ }
        ensures { result ≡ bytes.now }
    {
        AtomProperties { rest: bytes }
    }
}

/// The first of some properties, and the bytes of the others.
fn cut(bytes: &[u8]) -> Option<((u32, u32, AtomView<'_>), &[u8])>
    requires { ∥ AreProperties bytes.now ∥₁ }
    ensures none { IfNone result (length bytes.now ≡ 0) }
    ensures first { IfSome result (λ x. (parts : Parts) → SpellProperties bytes.now parts → TakesProperty parts (Some x.0) x.1.now) }
    ensures rest { IfSome result (λ x. ∥ AreProperties x.1.now ∥₁) }
    ensures shorter { IfSome result (λ x. length x.1.now < length bytes.now) }
{
    if bytes.is_empty() {
        return None;
    }
    let (key, context) = (u32_at(bytes, 0), u32_at(bytes, 4));
    let after = behind(bytes, 8);
    let end = 8 + u32_at(after, 0) as usize;
    let view = AtomView::over(front(after, end));
    Some(((key, context, view), behind(after, padded(end))))
}

impl<'a> Iterator for AtomProperties<'a> {
    ghost use Rattle.std.specs.Iterator.{item_count};

    type Item = (u32, u32, AtomView<'a>);

    ghost next_gives = { NextProperty };

    ghost remaining = { item_count (λ left. left) };

    fn next(&mut self) -> Option<(u32, u32, AtomView<'a>)> {
        let (property, rest) = cut(self.rest)?;
        self.rest = rest;
        Some(property)
    }
}
