ghost use Rattle.std.specs.Prelude.{◌≡◌, ◌≤◌, [], ◌∷◌, length, IsFalse, if◌then◌else◌, false, ◌⊎◌};
ghost use Rattle.std.specs.List.{All};
ghost use Rattle.plug_api.specs.Calls.{CanCall};
ghost use Rattle.worker_ring.specs.AnswerGuard.{answer_went, answer_marked, answer_can_mark, answer_chains};

use crate::answers::AnswerAttempts;
use crate::keep::{Attempt, keep, kind_by};
use arrayvec::ArrayVec;
use plug_api::{Respond, Sched};
use step_record::{Entry, Log, Marks, Tickets};

/// How many attempts of a call have an entry.
const MOST_ATTEMPTS: u8 = 16;

/// The status of an attempt without a recorded answer.
const UNKNOWN: u8 = 1;

impl<'a, T: Tickets> AnswerAttempts<'a, T> {
    /// For the attempts that this actor makes on this ring, with the answers that are recorded of them: 0 where the body was sent, 2 where
    /// it had no room. Where the instance declares no worker, none is recorded.
    pub fn new(
        answers: &'a [u8],
        actor: u32,
        tickets: &'a mut T,
        log: &'a mut Log,
        ring: u32,
        works: bool,
    ) -> Self
        requires few { length answers.now ≤ 16 }
        requires each { All (λ answer. (answer ≡ 0) ⊎ (answer ≡ 2)) answers.now }
        requires worker { IsFalse works → length answers.now ≡ 0 }
        requires tickets { 18 ≤ T.left tickets.old }
        requires spare { 18 ≤ log.old.spare }
        ensures answers { result.answers.now ≡ answers.now }
        ensures made { result.made.items ≡ [] }
        ensures tickets { result.tickets ≡ tickets.entry }
        ensures log { result.log ≡ log.entry }
        ensures actor { result.actor ≡ actor }
        ensures ring { result.ring ≡ ring }
        ensures room { result.room ≡ (if works then 16 else 0) }
        ensures surplus { result.surplus ≡ false }
        // It can mark a call, whatever attempts that makes.
        ensures call { CanCall (λ sched. sched.actor) answer_can_mark answer_marked answer_went result }
    {
        AnswerAttempts {
            answers,
            tickets,
            log,
            made: ArrayVec::new(),
            actor,
            ring,
            room: if works { MOST_ATTEMPTS } else { 0 },
            surplus: false,
        }
    }
}

impl<T: Tickets> AnswerAttempts<'_, T> {
    /// The first 16 attempts, in order.
    pub fn attempts(&self) -> &[Attempt]
        ensures { result.now ≡ self.now.made.items }
    {
        self.made.as_slice()
    }

    /// Whether an attempt was made that has no recorded answer, but would have had an entry: one of the first 16, with a worker.
    pub fn surplus(&self) -> bool
        ensures { result ≡ self.now.surplus }
    {
        self.surplus
    }

    fn attempt(&mut self, body: &[u8]) -> u8
        ensures { answer_went self.old (record { body = body.now; answer = result } ∷ []) self.new }
    {
        let room = self.room;
        self.room = room.saturating_sub(1);
        let Some((answer, rest)) = self.answers.split_first() else {
            self.surplus = self.surplus || room > 0;
            keep(&mut self.made, body, UNKNOWN);
            return UNKNOWN;
        };
        self.answers = rest;
        let ticket = self.tickets.draw();
        let entry = Entry {
            actor: self.actor,
            kind: kind_by(*answer, body),
            a: self.ring,
            b: 0,
        };
        self.log.put(ticket, entry);
        keep(&mut self.made, body, *answer);
        *answer
    }
}

impl<T: Tickets> Sched for AnswerAttempts<'_, T> {
    ghost went = { answer_went };

    fn schedule_work(&mut self, body: &[u8]) -> u8 {
        self.attempt(body)
    }

    ghost chains = { answer_chains _ };
}

impl<T: Tickets> Respond for AnswerAttempts<'_, T> {
    ghost went = { answer_went };

    fn respond(&mut self, body: &[u8]) -> u8 {
        self.attempt(body)
    }

    ghost chains = { answer_chains _ };
}

impl<T: Tickets> Marks for AnswerAttempts<'_, T> {
    ghost actor_of = { λ sched. sched.actor };

    ghost can_mark = { answer_can_mark };

    ghost marked = { answer_marked };

    fn actor(&self) -> u32 {
        self.actor
    }

    fn mark(&mut self, entry: Entry) -> u64 {
        let ticket = self.tickets.draw();
        self.log.put(ticket, entry);
        ticket
    }
}
