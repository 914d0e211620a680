ghost use Rattle.std.specs.Prelude.{◌≡◌, ◌+◌, ◌*◌, ◌<◌, ◌^◌, [], ◌∷◌, length, slice_set, IfOk, true};
ghost use Rattle.step_law.specs.Ring.{ring_at};
ghost use Rattle.record_law.specs.Message.{Message, History};
ghost use Rattle.record_law.specs.Room as room;
ghost use Rattle.record_law.specs.There.{has_form};
ghost use Rattle.record_counts.specs.Step.{step_of};

use lv_base::{Items, NoMemory};
use record_law::Shape;
use record_terms::{is_by, sender};
use std::alloc::Global;
use std::marker::Model;
use step_law::{Entry, Kind, Ring};

/// What is counted of a ring.
#[derive(Clone, Copy)]
pub struct RingCount {
    /// The messages that were sent.
    pub sent: u64,
    /// Those of them that the actor sent whose ring it is.
    pub by_sender: u64,
    /// The messages that were taken.
    pub taken: u64,
}

impl RingCount {
    ghost use Rattle.std.specs.Prelude.{◌≡◌, ◌<◌, ◌^◌, ◌-◌};
    ghost use Rattle.record_counts.specs.Rings.{IsFew, one_sent, one_taken};

    fn none() -> RingCount
        ensures { result ≡ record { sent = 0; by_sender = 0; taken = 0 } }
    {
        RingCount {
            sent: 0,
            by_sender: 0,
            taken: 0,
        }
    }

    /// One more message is sent. Counts stand still at 2^64 - 1.
    fn with_send(self, is_by_sender: bool) -> RingCount
        ensures { IsFew self → result ≡ one_sent is_by_sender self }
    {
        let own = if is_by_sender { 1 } else { 0 };
        RingCount {
            sent: self.sent.saturating_add(1),
            by_sender: self.by_sender.saturating_add(own),
            taken: self.taken,
        }
    }

    /// One more message is taken.
    fn with_take(self) -> RingCount
        ensures { IsFew self → result ≡ one_taken self }
    {
        RingCount {
            sent: self.sent,
            by_sender: self.by_sender,
            taken: self.taken.saturating_add(1),
        }
    }

    /// The messages that were sent and not taken.
    pub fn waiting(self) -> u64
        ensures { result ≡ self.sent - self.taken }
    {
        self.sent.saturating_sub(self.taken)
    }
}

/// What is counted of each ring, by its number.
#[derive(Drop)]
pub struct RingCounts {
    counts: Items<RingCount>,
}

impl Model for RingCounts {
    ghost use Rattle.std.specs.Prelude.{List};
    ghost use Rattle.record_counts.specs.declared.rings.RingCount.{RingCount};

    ghost Value = { List RingCount };

    ghost view = { λ it. it.counts };
}

impl RingCounts {
    ghost use Rattle.record_terms.specs.Session.{IsSession};
    ghost use Rattle.record_counts.specs.Rings.{count_at, CountsRings};

    /// Nothing was sent on any ring of a session.
    pub fn new(alloc: Global, shape: &Shape) -> Result<RingCounts, NoMemory>
        requires { IsSession shape.now }
        ensures { IfOk result (CountsRings shape.now []) }
    {
        let count = 18 + 3 * shape.insts.len();
        let counts = vec![in alloc; RingCount::none(); count]?;
        Ok(RingCounts {
            counts: Items::from_vec(counts),
        })
    }

    /// The counts of the ring with a number; none where no ring has it.
    pub fn of(&self, ring: u32) -> RingCount
        ensures { (shape : _) (h : History) → CountsRings shape h self.now → ring < length self.now → result ≡ count_at shape h ring }
    {
        match self.counts.get(ring as usize) {
            Some(count) => *count,
            None => RingCount::none(),
        }
    }

    /// Goes on by an entry.
    pub fn go_on(&mut self, shape: &Shape, entry: Entry)
        ensures { (h : History) (about : Message) → length h < 2 ^ 63 → CountsRings shape.now h self.old → CountsRings shape.now (step_of entry about ∷ h) self.new }
    {
        let count = self.of(entry.a);
        match entry.kind {
            Kind::Send => {
                let owner = sender(shape, Ring::from_number(entry.a));
                self.put(entry.a, count.with_send(is_by(owner, entry)));
            }
            Kind::Take => self.put(entry.a, count.with_take()),
            _ => {}
        }
    }

    fn put(&mut self, ring: u32, count: RingCount)
        ensures { self.new ≡ slice_set self.old ring count }
    {
        if (ring as usize) < self.counts.len() {
            self.counts.set(ring as usize, count);
        }
    }

    /// Whether a take finds a message; true of any other entry.
    pub fn finds_message(&self, entry: Entry) -> bool
        ensures { (shape : _) (h : History) → CountsRings shape h self.now → has_form shape entry ≡ true → result ≡ room.finds_message h entry.kind entry.a }
    {
        match entry.kind {
            Kind::Take => 0 < self.of(entry.a).waiting(),
            _ => true,
        }
    }

    /// Whether a ring that is said to be full has no room; true of any other entry.
    pub fn is_really_full(&self, shape: &Shape, entry: Entry) -> bool
        ensures { (h : History) → CountsRings shape.now h self.now → has_form shape.now entry ≡ true → result ≡ room.is_really_full shape.now h entry.kind entry.a }
    {
        match entry.kind {
            Kind::Full => u64::from(shape.cells) <= self.of(entry.a).waiting(),
            _ => true,
        }
    }

    /// Whether a send has room; true of any other entry.
    pub fn has_room(&self, shape: &Shape, entry: Entry) -> bool
        ensures { (h : History) → CountsRings shape.now h self.now → has_form shape.now entry ≡ true → result ≡ room.has_room shape.now h entry.kind entry.a }
    {
        match entry.kind {
            Kind::Send => self.of(entry.a).waiting() <= u64::from(shape.cells) + 1,
            _ => true,
        }
    }
}
