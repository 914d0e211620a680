ghost use Rattle.std.specs.Prelude.{◌≡◌, ◌≤◌, [], ◌∷◌, length, if◌then◌else◌};
ghost use Rattle.plug_api.specs.Calls.{CanCall};
ghost use Rattle.worker_ring.specs.Guard.{list_went, list_marked, list_can_mark, list_chains};

use crate::ListAttempts;
use crate::put::put;
use arrayvec::ArrayVec;
use plug_api::{Respond, Sched};
use step_record::{Entry, Log, Marks, Parcel, Tickets};

/// How many attempts of a call have an entry.
const MOST_ATTEMPTS: u8 = 16;

/// The status of an attempt that isn't to be made: the 17th of a call or a later one, or one without a worker.
const UNKNOWN: u8 = 1;

impl<'a, T: Tickets> ListAttempts<'a, T> {
    /// For the attempts that this actor makes on this ring. Where the instance declares no worker, none is accepted.
    pub fn new(
        list: &'a mut ArrayVec<Parcel, 64>,
        cells: u32,
        actor: u32,
        tickets: &'a mut T,
        log: &'a mut Log,
        ring: u32,
        works: bool,
    ) -> Self
        requires some_cells { 1 ≤ cells }
        requires cells { cells ≤ 64 }
        requires list { length list.old.items ≤ cells }
        requires tickets { 18 ≤ T.left tickets.old }
        requires spare { 18 ≤ log.old.spare }
        ensures list { result.list ≡ list.entry }
        ensures tickets { result.tickets ≡ tickets.entry }
        ensures log { result.log ≡ log.entry }
        ensures cells { result.cells ≡ cells }
        ensures actor { result.actor ≡ actor }
        ensures ring { result.ring ≡ ring }
        ensures room { result.room ≡ (if works then 16 else 0) }
        // It can mark a call, whatever attempts that makes.
        ensures call { CanCall (λ sched. sched.actor) list_can_mark list_marked list_went result }
    {
        ListAttempts {
            list,
            tickets,
            log,
            cells,
            actor,
            ring,
            room: if works { MOST_ATTEMPTS } else { 0 },
        }
    }
}

impl<T: Tickets> ListAttempts<'_, T> {
    fn attempt(&mut self, body: &[u8]) -> u8
        ensures { list_went self.old (record { body = body.now; answer = result } ∷ []) self.new }
    {
        if self.room == 0 {
            return UNKNOWN;
        }
        self.room -= 1;
        let (kind, status) = put(self.list, self.cells, body);
        let ticket = self.tickets.draw();
        let entry = Entry {
            actor: self.actor,
            kind,
            a: self.ring,
            b: 0,
        };
        self.log.put(ticket, entry);
        status
    }
}

impl<T: Tickets> Sched for ListAttempts<'_, T> {
    ghost went = { list_went };

    fn schedule_work(&mut self, body: &[u8]) -> u8 {
        self.attempt(body)
    }

    ghost chains = { list_chains _ };
}

impl<T: Tickets> Respond for ListAttempts<'_, T> {
    ghost went = { list_went };

    fn respond(&mut self, body: &[u8]) -> u8 {
        self.attempt(body)
    }

    ghost chains = { list_chains _ };
}

impl<T: Tickets> Marks for ListAttempts<'_, T> {
    ghost actor_of = { λ sched. sched.actor };

    ghost can_mark = { list_can_mark };

    ghost marked = { list_marked };

    fn actor(&self) -> u32 {
        self.actor
    }

    fn mark(&mut self, entry: Entry) -> u64 {
        let ticket = self.tickets.draw();
        self.log.put(ticket, entry);
        ticket
    }
}
