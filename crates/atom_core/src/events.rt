ghost use Rattle.std.specs.Prelude.{◌≡◌, ◌<◌, Some, IfSome, IfNone, length};
ghost use Rattle.atom_core.specs.Value.{Value, Parts};
ghost use Rattle.atom_core.specs.Answer.{Spells};
ghost use Rattle.atom_core.specs.Atoms.{SpellEvents, AreEvents, events_in, HoldsEvents};
ghost use Rattle.atom_core.specs.Iterating.{TakesEvent, NextEvent};

use crate::kind::SEQUENCE;
use crate::number::{i64_at, u32_at};
use crate::part::padded;
use crate::parts::front;
use crate::view::{AtomView, behind};
use std::marker::Model;

/// The events of a sequence, in order: of each its time and its atom. Contracts see it as the bytes that are left.
#[derive(Drop)]
pub struct Events<'a> {
    rest: &'a [u8],
    ghost spelled: { ∥ AreEvents rest.now ∥₁ },
}

impl<'a> Model for Events<'a> {
    ghost use Rattle.std.specs.Prelude.{List, ℕ};

    ghost Value = { List ℕ };

    ghost view = { λ events. events.rest.now };
}

impl<'a> Events<'a> {
    /// The events that bytes spell.
    pub fn over(bytes: &'a [u8]) -> Self
        requires { ∥ AreEvents bytes.now ∥₁ }
        ensures { result ≡ bytes.now }
    {
        Events { rest: bytes }
    }

    /// The bytes of the events that are left.
    pub fn bytes(&self) -> &'a [u8]
        ensures value { result.now ≡ self.now }
        ensures spelled { ∥ AreEvents result.now ∥₁ }
    {
        self.rest
    }
}

/// The first of some events, and the bytes of the others.
fn cut(bytes: &[u8]) -> Option<((i64, AtomView<'_>), &[u8])>
    requires { ∥ AreEvents bytes.now ∥₁ }
    ensures none { IfNone result (length bytes.now ≡ 0) }
    ensures first { IfSome result (λ x. (parts : Parts) → SpellEvents bytes.now parts → TakesEvent parts (Some x.0) x.1.now) }
    ensures rest { IfSome result (λ x. ∥ AreEvents x.1.now ∥₁) }
    ensures shorter { IfSome result (λ x. length x.1.now < length bytes.now) }
{
    if bytes.is_empty() {
        return None;
    }
    let time = i64_at(bytes, 0);
    let after = behind(bytes, 8);
    let end = 8 + u32_at(after, 0) as usize;
    let view = AtomView::over(front(after, end));
    Some(((time, view), behind(after, padded(end))))
}

impl<'a> Iterator for Events<'a> {
    ghost use Rattle.std.specs.Iterator.{item_count};

    type Item = (i64, AtomView<'a>);

    ghost next_gives = { NextEvent };

    ghost remaining = { item_count (λ left. left) };

    fn next(&mut self) -> Option<(i64, AtomView<'a>)> {
        let (event, rest) = cut(self.rest)?;
        self.rest = rest;
        Some(event)
    }
}

/// The events of a Sequence, in order.
pub fn events_of(view: AtomView<'_>) -> Option<Events<'_>>
    ensures { (v : Value) → Spells view.entry.bytes.now v → HoldsEvents result (events_in v) }
{
    if view.kind() != SEQUENCE {
        return None;
    }
    Some(Events::over(behind(view.body(), 8)))
}
