ghost use Rattle.std.specs.Prelude.{◌≡◌};
ghost use Rattle.atom_core.specs.Value.{Parts, holding, sequence};
ghost use Rattle.atom_core.specs.Answer.{Spells};
ghost use Rattle.atom_core.specs.Atoms.{SpellEvents, AreEvents};
ghost use Rattle.stock_tank.specs.Requests.{requests_of, Next};

use crate::ask::{Ask, ask_of};
use atom_core::{AtomView, Events, events_of};
use std::marker::Model;

/// What the events of a sequence ask, in order: of each its time and its ask. Contracts see the list of those that are left.
#[derive(Drop)]
pub(crate) struct Requests<'a> {
    key: u32,
    events: Events<'a>,
    ghost spelled: { ∥ AreEvents events ∥₁ },
}

impl<'a> Model for Requests<'a> {
    ghost use Rattle.std.specs.Prelude.{List};
    ghost use Rattle.stock_tank.specs.Requests.{Request, requests_in};

    ghost Value = { List Request };

    ghost view = { λ requests. requests_in requests.key requests.events };
}

impl<'a> Requests<'a> {
    /// What the events of a view ask, if it is a sequence.
    pub fn of(key: u32, view: AtomView<'a>) -> Self
        ensures { (parts : Parts) → Spells view.entry.bytes.now (holding sequence parts) → result ≡ requests_of key parts }
    {
        let events = events_in(view);
        Requests { key, events }
    }
}

// The events of a view: none if it isn't a sequence.
fn events_in(view: AtomView<'_>) -> Events<'_>
    ensures spelled { ∥ AreEvents result ∥₁ }
    ensures events { (parts : Parts) → Spells view.entry.bytes.now (holding sequence parts) → SpellEvents result parts }
{
    match events_of(view) {
        Some(events) => events,
        None => Events::over(&[]),
    }
}

impl<'a> Iterator for Requests<'a> {
    ghost use Rattle.std.specs.Iterator.{item_count};

    type Item = (i64, Ask);

    ghost next_gives = { Next };

    ghost remaining = { item_count (λ left. left) };

    fn next(&mut self) -> Option<(i64, Ask)> {
        let (time, atom) = self.events.next()?;
        Some((time, ask_of(self.key, atom)))
    }
}
