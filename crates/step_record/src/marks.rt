ghost use Rattle.std.specs.Prelude.{◌≡◌, ℕ};
ghost use Rattle.step_law.specs.declared.entry.Entry.{Entry};

use crate::Entry;

/// Marks what one actor does: draws a ticket for each entry, and puts it into the actor's log.
pub trait Marks {
    /// The actor that it marks for.
    ghost actor_of: { Self → ℕ };
    /// It can mark one more entry.
    ghost can_mark: { Self → Type 0 };
    /// It marks an entry with a ticket, and becomes this.
    ghost marked: { Self → Entry → ℕ → Self → Type 0 };

    /// The number of the actor that it marks for.
    fn actor(&self) -> u32
        ensures { result ≡ actor_of self.now };

    /// Draws a ticket, puts the entry with it, and answers it.
    fn mark(&mut self, entry: Entry) -> u64
        requires same_actor { entry.actor ≡ actor_of self.old }
        requires room { can_mark self.old }
        ensures { marked self.old entry result self.new };
}
