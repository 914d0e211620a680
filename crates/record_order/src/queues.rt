ghost use Rattle.std.specs.Prelude.{◌≡◌, ℕ, ◌<◌, ◌+◌, ◌*◌, [], ◌∷◌, length, true, slice_get, IfOk, Some};
ghost use Rattle.record_law.specs.declared.shape.Shape.{Shape};
ghost use Rattle.record_law.specs.History.{waiting};
ghost use Rattle.record_law.specs.Message.{History};
ghost use Rattle.record_law.specs.Protocol as law;
ghost use Rattle.step_law.specs.Ring.{ring_at};
ghost use Rattle.order_base.specs.Answer.{step_of};
ghost use Rattle.order_base.specs.Limits.{KeepsLimits};
ghost use Rattle.record_terms.specs.Message.{meaning_of};
ghost use Rattle.order_base.specs.There.{IsThere};
ghost use Rattle.record_order.specs.Waiting.{Waiting};
ghost use Rattle.record_order.specs.Queues.{AreQueues, AreThere, HasRoom, FindsMessage, NamesRing, HasQueues, HaveRoom, first_at};

use crate::queue::Queue;
use lv_base::NoMemory;
use record_law::Shape;
use record_terms::{Message, is_kind};
use std::alloc::Global;
use step_law::{Entry, Kind};

/// The messages that wait in all rings, by the rings' numbers.
#[derive(Drop)]
pub struct Queues {
    queues: Vec<Queue>,
}

impl Queues {
    /// No messages yet, and room in each ring of a session for two more than a ring between threads holds, since a record may show as many.
    pub fn new(alloc: Global, shape: &Shape) -> Result<Self, NoMemory>
        requires limits { KeepsLimits shape.now }
        requires cells { shape.now.cells < 65 }
        ensures queues { IfOk result (λ it. HasQueues (shape.now.cells + 2) it.queues.items (18 + 3 * length shape.now.insts)) }
        ensures stand { IfOk result (λ it. AreQueues it.queues.items []) }
        ensures there { IfOk result (λ it. AreThere shape.now it.queues.items) }
        ensures room { IfOk result (λ it. HaveRoom (shape.now.cells + 2) it.queues.items) }
    {
        let count = 18 + 3 * shape.insts.len();
        let room = shape.cells as usize + 2;
        let mut queues = Vec::new(alloc);
        for ring in 0..count {
            queues.push(Queue::with_room(alloc, room)?)?;
        }
        Ok(Queues { queues })
    }

    /// How many messages wait in a ring.
    pub fn waiting(&self, ring: u32) -> usize
        requires { ring < length self.now.queues.items }
        ensures after { (h : History) → AreQueues self.now.queues.items h → result ≡ waiting (ring_at ring) h }
        ensures messages { (it : Waiting) → slice_get self.now.queues.items ring ≡ Some it → result ≡ length it.messages }
    {
        self.queues[ring as usize].len()
    }

    /// The message that an entry brings, if it is a take.
    pub fn brought(&self, entry: Entry) -> Message
        requires { NamesRing self.now.queues.items Kind.Take entry }
        ensures brought { (h : History) → AreQueues self.now.queues.items h → meaning_of result ≡ law.brought h entry }
        ensures there { (s : Shape) → AreThere s self.now.queues.items → IsThere s result }
    {
        if is_kind(Kind::Take, entry) {
            self.first(entry.a)
        } else {
            Message::Nothing
        }
    }

    fn first(&self, ring: u32) -> Message
        requires { ring < length self.now.queues.items }
        ensures { result ≡ first_at self.now.queues.items ring }
    {
        self.queues[ring as usize]
            .first()
            .unwrap_or(Message::Nothing)
    }

    /// Notes an entry about a message: it may send on a ring, or take from one.
    pub fn note(&mut self, entry: Entry, about: Message)
        requires sends { NamesRing self.old.queues.items Kind.Send entry }
        requires takes { NamesRing self.old.queues.items Kind.Take entry }
        requires room { HasRoom self.old.queues.items entry }
        requires finds { FindsMessage self.old.queues.items entry }
        ensures count { length self.new.queues.items ≡ length self.old.queues.items }
        ensures room { (room : ℕ) → HaveRoom room self.old.queues.items → HaveRoom room self.new.queues.items }
        ensures noted { (h : History) → AreQueues self.old.queues.items h → AreQueues self.new.queues.items (step_of entry about ∷ h) }
        ensures there { (s : Shape) → IsThere s about → AreThere s self.old.queues.items → AreThere s self.new.queues.items }
    {
        if is_kind(Kind::Send, entry) {
            self.queues[entry.a as usize].add(about);
        } else if is_kind(Kind::Take, entry) {
            self.queues[entry.a as usize].take();
        }
    }
}
