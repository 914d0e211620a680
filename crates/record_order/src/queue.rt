ghost use Rattle.std.specs.Prelude.{◌≡◌, ◌<◌, [], ◌∷◌, ◌++◌, length, IfOk, None, Some};
ghost use Rattle.record_order.specs.Waiting.{first_of, with_message, without_first};

use lv_base::NoMemory;
use record_terms::Message;
use std::alloc::Global;
use std::collections::VecDeque;
use std::marker::Model;

/// The messages that wait in one ring, the oldest first. Contracts see them, and how many there may be.
#[derive(Drop)]
pub struct Queue {
    room: usize,
    messages: VecDeque<Message>,
}

impl Model for Queue {
    ghost use Rattle.std.specs.Prelude.{◌≤◌};
    ghost use Rattle.std.specs.VecDeque.{deque_len, deque_capacity};
    ghost use Rattle.record_order.specs.Waiting.{Waiting};

    ghost Value = { Waiting };

    ghost view = { λ queue. record { room = queue.room; messages = queue.messages.items } };

    ghost invariant = { λ queue. (deque_len queue.messages ≤ queue.room) × (queue.room ≤ deque_capacity queue.messages) };
}

impl Queue {
    /// No messages yet, and room for so many.
    pub fn with_room(alloc: Global, room: usize) -> Result<Self, NoMemory>
        ensures { IfOk result (λ queue. queue ≡ record { room = room; messages = [] }) }
    {
        let messages = VecDeque::with_capacity(alloc, room)?;
        Ok(Queue { room, messages })
    }

    /// How many messages wait.
    pub fn len(&self) -> usize
        ensures { result ≡ length self.now.messages }
    {
        self.messages.len()
    }

    /// The oldest message, if one waits.
    pub fn first(&self) -> Option<Message>
        ensures { result ≡ first_of self.now.messages }
    {
        self.messages.front().copied()
    }

    /// A message more waits. It takes no memory.
    pub fn add(&mut self, message: Message)
        requires { length self.old.messages < self.old.room }
        ensures { self.new ≡ with_message self.old message }
    {
        self.messages.push_back_reserved(message);
    }

    /// The oldest message is taken, if one waits.
    pub fn take(&mut self)
        ensures { self.new ≡ without_first self.old }
    {
        let _ = self.messages.pop_front();
    }
}
