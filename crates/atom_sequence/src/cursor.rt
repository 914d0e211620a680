ghost use Rattle.std.specs.Prelude.{◌≡◌, ◌+◌, ◌^◌, ◌<◌, ◌≤◌, IsSome, OnOk, List, [], ◌∷◌, MatchOption, length, ℤ};
ghost use Rattle.atom_core.specs.Value.{Value};
ghost use Rattle.atom_core.specs.Atoms.{SpellEvents, AreEvents};
ghost use Rattle.atom_forge.specs.Forged.{left};
ghost use Rattle.atom_sequence.specs.Event.{Event, as_parts, SpellSequence};
ghost use Rattle.atom_sequence.specs.Views.{AwaitsEvent};
ghost use Rattle.atom_sequence.specs.Cursors.{HasLeft, time_of, time_at, IsEarliest, AreDone, IsBest, IsAtomOf, PutsEvent, PutsFirst};

use atom_core::{AtomView, Events, events_of};
use atom_forge::{Forge, NoRoom};

/// What is left of the events of a view: the first of them, and the bytes of the others.
#[derive(Clone, Copy)]
pub struct Cursor<'a> {
    next: Option<(i64, AtomView<'a>)>,
    rest: &'a [u8],
}

impl<'a> Cursor<'a> {
    /// Nothing is left.
    pub fn done() -> Self
        ensures { HasLeft result [] }
    {
        Cursor {
            next: None,
            rest: &[],
        }
    }

    /// The events that bytes spell.
    pub fn over(rest: &'a [u8]) -> Self
        requires { ∥ AreEvents rest.now ∥₁ }
        ensures { (events : List Event) → SpellEvents rest.entry.now (as_parts events) → HasLeft result events }
    {
        let mut events = Events::over(rest);
        let next = events.next();
        Cursor {
            next,
            rest: events.bytes(),
        }
    }

    /// All events of a view, if it is a sequence.
    pub fn of(view: AtomView<'a>) -> Self
        ensures { (events : List Event) → SpellSequence view.entry.bytes.now events → HasLeft result events }
    {
        match events_of(view) {
            Some(events) => Cursor::over(events.bytes()),
            None => Cursor::done(),
        }
    }

    /// The time of the first of the events, if there is one.
    fn time(&self) -> Option<i64>
        ensures { result ≡ time_of self.now }
    {
        self.next.map(|(time, _)| time)
    }

    /// Writes the first of the events, and gives what is left then.
    pub fn put(self, into: &mut Forge) -> Result<Self, NoRoom>
        requires some { IsSome self.next }
        requires left { ∥ ((events : List Event) × HasLeft self events) ∥₁ }
        requires awaits { AwaitsEvent into.old }
        ensures first { (e : Event) (events : List Event) → HasLeft self.entry (e ∷ events) → PutsFirst into.old e events result into.new }
        ensures still { AwaitsEvent into.new }
        ensures room { into.new.room ≡ into.old.room }
        ensures small { into.old.room < 2 ^ 32 }
        ensures less { OnOk result (left into.new + 16 ≤ left into.old) }
    {
        let Some((time, atom)) = self.next else {
            return Ok(self);
        };
        put_event(into, time, atom)?;
        Ok(Cursor::over(self.rest))
    }
}

/// Writes an event, if there is room for its time and its atom, and else nothing.
pub fn put_event(into: &mut Forge, time: i64, atom: AtomView<'_>) -> Result<(), NoRoom>
    requires awaits { AwaitsEvent into.old }
    requires atom { ∥ ((value : Value) × IsAtomOf atom value) ∥₁ }
    ensures event { (value : Value) → IsAtomOf atom.entry value → PutsEvent into.old (record { time = time; value = value }) result into.new }
    ensures still { AwaitsEvent into.new }
    ensures room { into.new.room ≡ into.old.room }
    ensures small { into.old.room < 2 ^ 32 }
    ensures less { OnOk result (left into.new + 16 ≤ left into.old) }
{
    let mark = into.mark();
    into.event(time)?;
    if let Err(fault) = into.raw(atom.kind(), atom.body()) {
        into.back(mark);
        return Err(fault);
    }
    Ok(())
}

/// The earlier of the best place so far and the place after it, which has an event at this time, if any.
fn earlier(best: Option<(usize, i64)>, place: usize, time: Option<i64>) -> Option<(usize, i64)>
    ensures { (cursors : List Cursor) → IsBest cursors place best → time_at cursors place ≡ time → IsBest cursors (place + 1) result }
{
    let Some(time) = time else {
        return best;
    };
    match best {
        Some((_, least)) if least <= time => best,
        _ => Some((place, time)),
    }
}

/// The place of the earliest event that is left, and of those at one time the first.
pub fn earliest(cursors: &[Cursor<'_>]) -> Option<usize>
    ensures { MatchOption result (AreDone cursors.now (length cursors.now)) (λ place. (time : ℤ) × IsEarliest cursors.now (length cursors.now) place time) }
{
    let mut best = None;
    for (place, cursor) in cursors.iter().enumerate() {
        best = earlier(best, place, cursor.time());
    }
    let (place, _) = best?;
    Some(place)
}
