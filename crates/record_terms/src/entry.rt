//! Tests of one entry.
ghost use Rattle.std.specs.Prelude.{◌≡◌, ◌<◌, ◌^◌};
ghost use Rattle.step_law.specs.Ring.{ring_number};
ghost use Rattle.record_law.specs.Entries as spec;

use step_law::{Actor, Entry, Kind, Ring};

/// Whether an entry is an actor's.
pub fn is_by(actor: Actor, entry: Entry) -> bool
    ensures { result ≡ spec.is_by actor entry }
{
    match actor {
        Actor::Audio => entry.actor == 0,
        Actor::Control => entry.actor == 1,
        Actor::Worker(worker) => u64::from(entry.actor) == 1 + u64::from(worker),
    }
}

/// Whether an entry is of this kind.
pub fn is_kind(kind: Kind, entry: Entry) -> bool
    ensures { result ≡ spec.is_kind kind entry }
{
    entry.kind as u32 == kind as u32
}

/// Whether an entry of this kind is on a ring.
pub fn is_on(kind: Kind, ring: Ring, entry: Entry) -> bool
    requires { ring_number ring < 2 ^ 32 }
    ensures { result ≡ spec.is_on kind ring entry }
{
    is_kind(kind, entry) && entry.a == ring.number()
}

/// Whether an entry is the one that is wanted.
pub fn is_same(wanted: Entry, entry: Entry) -> bool
    ensures { result ≡ spec.same_entry wanted entry }
{
    entry.actor == wanted.actor
        && is_kind(wanted.kind, entry)
        && entry.a == wanted.a
        && entry.b == wanted.b
}
