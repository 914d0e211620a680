ghost use Rattle.std.specs.Prelude.{◌≡◌, ◌≤◌};
ghost use Rattle.step_record.specs.Log.{Writes};

use crate::{Entry, Log, Marks, Tickets};

/// Marks for one actor, with tickets and a log that it is lent.
#[derive(Drop)]
pub struct Pen<'a, T: Tickets> {
    pub tickets: &'a mut T,
    pub log: &'a mut Log,
    pub actor: u32,
}

impl<'a, T: Tickets> Pen<'a, T> {
    /// A pen for this actor.
    pub fn new(actor: u32, tickets: &'a mut T, log: &'a mut Log) -> Self
        ensures actor { result.actor ≡ actor }
        ensures tickets { result.tickets ≡ tickets.entry }
        ensures log { result.log ≡ log.entry }
    {
        Pen {
            tickets,
            log,
            actor,
        }
    }
}

impl<T: Tickets> Marks for Pen<'_, T> {
    ghost actor_of = { λ pen. pen.actor };

    ghost can_mark = { λ pen. (1 ≤ T.left pen.tickets.now) × (1 ≤ pen.log.now.spare) };

    ghost marked = { λ pen entry ticket after. Writes T.left T.drawn T.rest pen.tickets.now pen.log.now entry ticket after.tickets.now after.log.now × (after.actor ≡ pen.actor) × (after.tickets.ghost_name ≡ pen.tickets.ghost_name) × (after.log.ghost_name ≡ pen.log.ghost_name) };

    fn actor(&self) -> u32 {
        self.actor
    }

    fn mark(&mut self, entry: Entry) -> u64 {
        let ticket = self.tickets.draw();
        self.log.put(ticket, entry);
        ticket
    }
}
