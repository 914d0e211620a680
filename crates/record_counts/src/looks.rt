ghost use Rattle.std.specs.Prelude.{◌≡◌, ◌==◌, ◌&&◌, ◌+◌, ◌-◌, ◌<◌, ◌≤◌, ◌^◌, [], ◌∷◌, length, slice_set, IfOk, true};
ghost use Rattle.step_law.specs.Actor.{actor_number};
ghost use Rattle.step_law.specs.Ring.{ring_at};
ghost use Rattle.step_law.specs.declared.entry.Kind.TheVariants.{Send, Take};
ghost use Rattle.record_law.specs.Message.{Message, History};
ghost use Rattle.record_law.specs.History.{count, own, settled};
ghost use Rattle.record_law.specs.Entries.{is_kind};
ghost use Rattle.record_law.specs.Looks as spec;
ghost use Rattle.record_law.specs.Shape as shapes;
ghost use Rattle.record_law.specs.There.{is_ring_there, has_form};
ghost use Rattle.record_counts.specs.Step.{step_of};
ghost use Rattle.record_terms.specs.Session.{IsSession};
ghost use Rattle.record_counts.specs.Kept.{IsKept};
ghost use Rattle.record_counts.specs.Progress.{worth_of};
ghost use Rattle.record_counts.specs.Rings.{CountsRings};

use crate::rings::RingCounts;
use lv_base::{Items, NoMemory};
use record_law::Shape;
use record_terms::{is_by, is_kind, sender};
use std::alloc::Global;
use step_law::{Actor, Entry, Kind, Ring};

/// What the rule on looks needs: the last entry of each actor, and the progress that audio's entries made known.
#[derive(Drop)]
pub struct Looks {
    /// By the numbers of the actors.
    pub(crate) last: Items<Option<Entry>>,
    /// How many blocks have ended, and one more once audio has stopped.
    pub(crate) known: u64,
    /// The same before audio's last entry.
    pub(crate) settled: u64,
}

impl Looks {
    ghost use Rattle.record_counts.specs.Looks.{newest_of, is_newest_on, EndsInTurn, TellsLooks};

    /// No actor has done anything.
    pub fn new(alloc: Global, shape: &Shape) -> Result<Looks, NoMemory>
        requires { IsSession shape.now }
        ensures { IfOk result (TellsLooks shape.now []) }
    {
        let count = 2 + shape.workers as usize;
        let last = vec![in alloc; None; count]?;
        Ok(Looks {
            last: Items::from_vec(last),
            known: 0,
            settled: 0,
        })
    }

    /// The last entry of an actor.
    pub fn last(&self, actor: Actor) -> Option<Entry>
        ensures { (shape : _) (h : History) → TellsLooks shape h self.now → actor_number actor < 2 + shape.workers → result ≡ newest_of (own actor h) }
    {
        let number = match actor {
            Actor::Audio => 0,
            Actor::Control => 1,
            Actor::Worker(worker) => 1 + worker as usize,
        };
        *self.last.get(number)?
    }

    /// Goes on by an entry.
    pub fn go_on(&mut self, entry: Entry)
        ensures { (shape : _) (h : History) (about : Message) → length h < 2 ^ 63 → TellsLooks shape h self.old → TellsLooks shape (step_of entry about ∷ h) self.new }
    {
        self.note(entry);
        if is_by(Actor::Audio, entry) {
            self.settled = self.known;
            self.known = self.known.saturating_add(worth(entry.kind));
        }
    }

    fn note(&mut self, entry: Entry)
        ensures { self.new ≡ record self.old { last = slice_set self.old.last entry.actor (Some entry) } }
    {
        if (entry.actor as usize) < self.last.len() {
            self.last.set(entry.actor as usize, Some(entry));
        }
    }

    /// Whether a look, or control's sight of the progress, shows all that its sender has gone on from.
    pub fn shows_enough(&self, rings: &RingCounts, shape: &Shape, entry: Entry) -> bool
        ensures { (h : History) → IsSession shape.now → CountsRings shape.now h rings.now → TellsLooks shape.now h self.now → EndsInTurn shape.now h → has_form shape.now entry ≡ true → result ≡ spec.shows_enough shape.now h entry.kind entry.a entry.b }
    {
        match entry.kind {
            Kind::Look => self.settled_waiting(rings, shape, entry.a) <= u64::from(entry.b),
            Kind::Beat => self.settled <= u64::from(entry.a),
            _ => true,
        }
    }

    // How many messages more the sender of a ring has gone on from than were taken.
    fn settled_waiting(&self, rings: &RingCounts, shape: &Shape, ring: u32) -> u64
        ensures { (h : History) → IsSession shape.now → CountsRings shape.now h rings.now → TellsLooks shape.now h self.now → is_ring_there shape.now (ring_at ring) ≡ true → result ≡ count Send (ring_at ring) (settled (shapes.sender shape.now (ring_at ring)) h) - count Take (ring_at ring) h }
    {
        let count = rings.of(ring);
        let newest = u64::from(self.is_last_send(shape, ring));
        count
            .by_sender
            .saturating_sub(newest)
            .saturating_sub(count.taken)
    }

    // Whether the last entry of a ring's sender is a send on it.
    fn is_last_send(&self, shape: &Shape, ring: u32) -> bool
        ensures { (h : History) → IsSession shape.now → TellsLooks shape.now h self.now → is_ring_there shape.now (ring_at ring) ≡ true → result ≡ is_newest_on Send ring (newest_of (own (shapes.sender shape.now (ring_at ring)) h)) }
    {
        match self.last(sender(shape, Ring::from_number(ring))) {
            Some(last) => is_send_on(ring, last),
            None => false,
        }
    }

    /// Whether the last entry of an actor, if it has one, showed no more than there is.
    pub fn last_shows_no_more(&self, rings: &RingCounts, actor: Actor) -> bool
        ensures { (shape : _) (h : History) → IsKept shape h → CountsRings shape h rings.now → TellsLooks shape h self.now → EndsInTurn shape h → actor_number actor < 2 + shape.workers → result ≡ spec.last_shows_no_more shape h (own actor h) }
    {
        match self.last(actor) {
            Some(last) => self.shows_no_more(rings, last),
            None => true,
        }
    }

    fn shows_no_more(&self, rings: &RingCounts, last: Entry) -> bool
        ensures { (shape : _) (h : History) → has_form shape last ≡ true → CountsRings shape h rings.now → TellsLooks shape h self.now → EndsInTurn shape h → result ≡ spec.shows_no_more shape h last.kind last.a last.b }
    {
        match last.kind {
            Kind::Look => {
                let count = rings.of(last.a);
                count.taken <= count.sent && u64::from(last.b) <= count.waiting()
            }
            Kind::Beat => u64::from(last.a) <= self.known,
            _ => true,
        }
    }
}

// By how much an entry of audio's raises the progress.
fn worth(kind: Kind) -> u64
    ensures { result ≡ worth_of kind }
{
    match kind {
        Kind::Done | Kind::Stop => 1,
        _ => 0,
    }
}

fn is_send_on(ring: u32, entry: Entry) -> bool
    ensures { result ≡ (is_kind Send entry && (entry.a == ring)) }
{
    is_kind(Kind::Send, entry) && entry.a == ring
}
