ghost use Rattle.std.specs.Prelude.{◌≡◌, ◌+◌, ◌<◌, ◌≤◌, ◌^◌, [], ◌∷◌, ◌++◌, List, length, take, slice_get, Some, IfOk, IfErr, OnOk, OnErr};
ghost use Rattle.step_law.specs.declared.entry.Entry.{Entry};
ghost use Rattle.record_law.specs.declared.shape.Shape.{Shape};
ghost use Rattle.record_law.specs.Lawful.{is_ended};
ghost use Rattle.record_law.specs.Protocol.{history_of};
ghost use Rattle.record_terms.specs.Session.{IsSession};
ghost use Rattle.order_base.specs.There.{IsThere};
ghost use Rattle.record_legal.specs.Judging.{IsAbout};
ghost use Rattle.step_record.specs.Count.{tickets_left};
ghost use Rattle.judged_log.specs.declared.halt.Halt.TheVariants as halts;
ghost use Rattle.judged_log.specs.Followed.{IsFollowed, IsRefused, BreaksAfter, entries_of, next_broken};

use crate::{Follower, Halt};
use lv_base::NoMemory;
use record_law::{Broken, Shape};
use record_terms::Message;
use std::alloc::Global;
use step_record::{Count, Entry, Log, Record};

/// The log of a run on one thread, and what is kept of its entries to judge the next.
#[derive(Drop)]
pub struct JudgedLog {
    /// Calls on instances mark their entries here by themselves; `follow_call` then judges these.
    pub log: Log,
    follower: Follower,
}

impl JudgedLog {
    /// A log without entries.
    pub fn new(alloc: Global, shape: &Shape) -> Result<Self, NoMemory>
        requires { IsSession shape.now }
        ensures entries { IfOk result (λ it. it.log.items ≡ []) }
        ensures followed { IfOk result (λ it. IsFollowed shape.now [] it.follower) }
    {
        let log = Log::with_room(alloc, 0)?;
        let follower = Follower::new(alloc, shape)?;
        Ok(JudgedLog { log, follower })
    }

    /// How many entries the log has.
    pub fn len(&self) -> usize
        ensures { result ≡ length self.now.log.items }
    {
        self.log.items().len()
    }

    /// Tickets for the entries of a call: they go on from the number of the log's next entry.
    pub fn tickets(&self) -> Count
        ensures { tickets_left result ≡ 2 ^ 56 }
    {
        Count::from_number(self.log.items().len() as u64)
    }

    /// Makes room for at least so many entries more. A refusal leaves all as before.
    pub fn reserve(&mut self, more: usize) -> Result<(), NoMemory>
        ensures items { self.new.log.items ≡ self.old.log.items }
        ensures follower { self.new.follower ≡ self.old.follower }
        ensures ok { OnOk result (more ≤ self.new.log.spare) }
        ensures err { OnErr result (self.new.log ≡ self.old.log) }
    {
        self.log.grow(more as u64)
    }

    /// Adds an entry that breaks no rule, and gives what it is about. An entry that breaks one isn't added; after that the log takes no
    /// more. Where memory is wanted, all is as before.
    pub fn mark(&mut self, shape: &Shape, entry: Entry) -> Result<Message, Halt>
        requires session { IsSession shape.now }
        requires followed { IsFollowed shape.now (entries_of self.old.log.items) self.old.follower }
        ensures entries { IfOk result (λ about. entries_of self.new.log.items ≡ entries_of self.old.log.items ++ entry ∷ []) }
        ensures followed { IfOk result (λ about. IsFollowed shape.now (entries_of self.new.log.items) self.new.follower) }
        ensures about { IfOk result (IsAbout shape.now (history_of shape.now (entries_of self.old.log.items)) entry) }
        ensures there { IfOk result (IsThere shape.now) }
        ensures err { IfErr result (IsRefused shape.now (entries_of self.old.log.items) entry) }
        ensures kept { IfErr result (λ halt. self.new.log.items ≡ self.old.log.items) }
        ensures memory { IfErr result (λ halt. halt ≡ halts.NoMemory → self.new.follower ≡ self.old.follower) }
    {
        self.log.grow(1)?;
        let ticket = self.log.items().len() as u64;
        let about = self.follower.follow(shape, entry)?;
        self.log.put(ticket, entry);
        Ok(about)
    }

    /// Judges the entry at a place of the log, where those before it were judged, and gives what it is about; or else the first rule that
    /// it breaks.
    pub fn follow_at(&mut self, shape: &Shape, place: usize) -> Result<Message, Broken>
        requires session { IsSession shape.now }
        requires place { place < length self.old.log.items }
        requires followed { IsFollowed shape.now (take place (entries_of self.old.log.items)) self.old.follower }
        ensures log { self.new.log ≡ self.old.log }
        ensures followed { IfOk result (λ about. IsFollowed shape.now (take (place + 1) (entries_of self.old.log.items)) self.new.follower) }
        ensures about { IfOk result (λ about. (entry : Entry) → slice_get (entries_of self.old.log.items) place ≡ Some entry → IsAbout shape.now (history_of shape.now (take place (entries_of self.old.log.items))) entry about) }
        ensures there { IfOk result (IsThere shape.now) }
        ensures err { IfErr result (λ broken. (entry : Entry) → slice_get (entries_of self.old.log.items) place ≡ Some entry → next_broken shape.now (take place (entries_of self.old.log.items)) entry ≡ Some broken) }
    {
        let (_, entry) = self.log.items()[place];
        self.follower.follow(shape, entry)
    }

    /// Judges the entries that a call marked, those from a place on, where those before it were judged. Gives what the first of them is
    /// about; or else the first rule that one of them breaks.
    pub fn follow_call(&mut self, shape: &Shape, from: usize) -> Result<Message, Broken>
        requires session { IsSession shape.now }
        requires from { from < length self.old.log.items }
        requires followed { IsFollowed shape.now (take from (entries_of self.old.log.items)) self.old.follower }
        ensures log { self.new.log ≡ self.old.log }
        ensures followed { IfOk result (λ about. IsFollowed shape.now (entries_of self.old.log.items) self.new.follower) }
        ensures about { IfOk result (λ about. (entry : Entry) → slice_get (entries_of self.old.log.items) from ≡ Some entry → IsAbout shape.now (history_of shape.now (take from (entries_of self.old.log.items))) entry about) }
        ensures there { IfOk result (IsThere shape.now) }
        ensures err { IfErr result (BreaksAfter shape.now from (entries_of self.old.log.items)) }
    {
        let count = self.len();
        let about = self.follow_at(shape, from)?;
        self.follow_between(shape, from + 1, count)?;
        Ok(about)
    }

    // Judges the entries from a place on, up to the last.
    fn follow_between(&mut self, shape: &Shape, from: usize, count: usize) -> Result<(), Broken>
        requires session { IsSession shape.now }
        requires from { from ≤ length self.old.log.items }
        requires count { count ≡ length self.old.log.items }
        requires followed { IsFollowed shape.now (take from (entries_of self.old.log.items)) self.old.follower }
        ensures log { self.new.log ≡ self.old.log }
        ensures followed { OnOk result (IsFollowed shape.now (entries_of self.old.log.items) self.new.follower) }
        ensures err { IfErr result (BreaksAfter shape.now from (entries_of self.old.log.items)) }
    {
        for place in from..count {
            self.follow_at(shape, place)?;
        }
        Ok(())
    }

    /// Whether the log has the end of the record.
    pub fn has_ended(&self) -> bool
        ensures { (shape : Shape) (steps : List Entry) → IsFollowed shape steps self.now.follower → result ≡ is_ended steps }
    {
        self.follower.has_ended()
    }

    /// The entries as a record.
    pub fn to_record(&self, alloc: Global) -> Result<Record, NoMemory>
        ensures { IfOk result (λ steps. steps ≡ entries_of self.now.log.items) }
    {
        let mut steps = Record::new(alloc);
        for (_, entry) in self.log.items() {
            steps.push(*entry)?;
        }
        Ok(steps)
    }
}
