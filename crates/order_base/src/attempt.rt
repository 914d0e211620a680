ghost use Rattle.std.specs.Prelude.{◌≡◌, ◌<◌, ◌^◌};
ghost use Rattle.step_law.specs.Actor.{actor_number};
ghost use Rattle.step_law.specs.Ring.{ring_number};
ghost use Rattle.record_law.specs.Audio.{is_attempt, at_most};

use record_terms::is_same;
use step_law::{Actor, Entry, Ring};

/// Whether an entry is an attempt to send on a ring: the ring took the message, was full, or the message was too long.
pub fn is_attempt(actor: Actor, ring: Ring, entry: Entry) -> bool
    requires actor { actor_number actor < 2 ^ 32 }
    requires ring { ring_number ring < 2 ^ 32 }
    ensures { result ≡ is_attempt actor ring entry }
{
    is_same(Entry::send(actor, ring), entry)
        || is_same(Entry::full(actor, ring), entry)
        || is_same(Entry::long(actor, ring), entry)
}

/// How many attempts a call makes at most, or how many notices a run tells.
pub fn at_most(some: bool) -> u32
    ensures { result ≡ at_most some }
{
    if some { 16 } else { 0 }
}
