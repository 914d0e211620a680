ghost use Rattle.std.specs.Prelude.{◌≡◌, ℕ, ◌+◌, ◌<◌, ◌^◌, [], ◌∷◌, length, slice_set, true, Some, IfOk};
ghost use Rattle.graph_order.specs.declared.setup.Setup.{Setup};
ghost use Rattle.record_law.specs.Message.{History};
ghost use Rattle.record_law.specs.History as history;
ghost use Rattle.record_terms.specs.Message.{meaning_of};
ghost use Rattle.record_counts.specs.Step.{step_of};
ghost use Rattle.record_counts.specs.Table.{IsTable};
ghost use Rattle.run_summary.specs.declared.counter.InstTally.{InstTally};
ghost use Rattle.run_summary.specs.Counting as counting;
ghost use Rattle.run_summary.specs.Parts as parts;
ghost use Rattle.run_summary.specs.Tallies.{Tallies, one_failed};

use crate::counter::{Counter, InstTally, counted_for, one_more_if};
use graph_order::Setup;
use lv_base::{Items, NoMemory};
use record_terms::{Message, is_kind, is_on};
use std::alloc::Global;
use step_law::{Entry, Kind, Ring};

/// What a run counts, as it goes on from entry to entry. Counts stand still at 2^64 - 1.
#[derive(Drop)]
pub struct Tally {
    pub(crate) insts: Items<InstTally>,
    /// Of each action whether audio took what it sends.
    pub(crate) taken: Items<bool>,
    /// The notices that found no room or were too long.
    pub(crate) lost: u64,
    /// The entries without the end of the record.
    pub(crate) entries: u64,
}

impl Tally {
    /// Nothing was done yet. From here on nothing takes memory.
    pub fn new(alloc: Global, setup: &Setup) -> Result<Tally, NoMemory>
        ensures { IfOk result (Tallies setup.now [] (λ inst. 0)) }
    {
        let insts = vec![in alloc; InstTally::none(); setup.session.insts.len()]?;
        let taken = vec![in alloc; false; setup.session.actions.len()]?;
        Ok(Tally {
            insts: Items::from_vec(insts),
            taken: Items::from_vec(taken),
            lost: 0,
            entries: 0,
        })
    }

    /// Goes on by an entry and what it is about.
    pub fn note(&mut self, entry: Entry, about: Message)
        ensures { (setup : Setup) (h : History) (failed : ℕ → ℕ) → length h < 2 ^ 63 → Tallies setup h failed self.old → Tallies setup (step_of entry (meaning_of about) ∷ h) failed self.new }
    {
        self.note_whole(entry, about);
        self.note_inst(entry);
        self.note_input(entry, about);
    }

    /// A work of an instance ended with another status than 0.
    pub fn failed(&mut self, inst: u32)
        ensures { (setup : Setup) (h : History) (failed : ℕ → ℕ) → failed inst < 2 ^ 63 → Tallies setup h failed self.old → Tallies setup h (one_failed inst failed) self.new }
    {
        self.raise(inst, Counter::Errors);
    }

    /// What was counted of an instance; of one that isn't there nothing.
    pub fn of(&self, inst: usize) -> InstTally
        ensures { result ≡ parts.counts_at self.now inst }
    {
        self.insts.get(inst).copied().unwrap_or(InstTally::none())
    }

    /// Whether audio took what an action sends.
    pub(crate) fn took(&self, action: usize) -> bool
        ensures { result ≡ parts.was_taken self.now action }
    {
        self.taken.get(action).copied().unwrap_or(false)
    }

    /// Goes on with what is counted of the whole run.
    fn note_whole(&mut self, entry: Entry, about: Message)
        ensures rest { self.new ≡ record self.old { lost = self.new.lost; entries = self.new.entries } }
        ensures lost { self.old.lost + 1 < 2 ^ 64 → self.new.lost ≡ history.one_more (counting.is_lost entry (meaning_of about)) self.old.lost }
        ensures entries { self.old.entries + 1 < 2 ^ 64 → self.new.entries ≡ history.one_more (counting.is_step entry) self.old.entries }
    {
        self.lost = one_more_if(is_lost(entry, about), self.lost);
        self.entries = one_more_if(!is_kind(Kind::Last, entry), self.entries);
    }

    /// Goes on with what is counted of the instance that an entry counts for.
    fn note_inst(&mut self, entry: Entry)
        ensures each { (f : ℕ → InstTally) → counting.HasRoom (counting.counted_for entry) f → IsTable f self.old.insts → IsTable (λ i. counting.raised_by (counting.counted_for entry) i (f i)) self.new.insts }
        ensures all { length self.new.insts ≡ length self.old.insts }
        ensures rest { self.new ≡ record self.old { insts = self.new.insts } }
    {
        if let Some((inst, counter)) = counted_for(entry) {
            self.raise(inst, counter);
        }
    }

    /// Goes on with what audio took of actions.
    fn note_input(&mut self, entry: Entry, about: Message)
        ensures { self.new ≡ record self.old { taken = counting.taken_with (counting.input_taken entry (meaning_of about)) self.old.taken } }
    {
        if let Some(action) = input_taken(entry, about) {
            self.take(action);
        }
    }

    /// One more is counted of an instance, if it is there.
    fn raise(&mut self, inst: u32, counter: Counter)
        ensures each { (f : ℕ → InstTally) → counting.count_in counter (f inst) + 1 < 2 ^ 64 → IsTable f self.old.insts → IsTable (λ i. counting.raised_by (Some (inst, counter)) i (f i)) self.new.insts }
        ensures all { length self.new.insts ≡ length self.old.insts }
        ensures rest { self.new ≡ record self.old { insts = self.new.insts } }
    {
        if let Some(mut counts) = self.insts.get(inst as usize).copied() {
            counts.raise(counter);
            self.insts.set(inst as usize, counts);
        }
    }

    /// Audio took what an action sends, if the action is there.
    fn take(&mut self, action: u32)
        ensures { self.new ≡ record self.old { taken = slice_set self.old.taken action true } }
    {
        if (action as usize) < self.taken.len() {
            self.taken.set(action as usize, true);
        }
    }
}

/// Whether a notice was lost.
fn is_lost(entry: Entry, about: Message) -> bool
    ensures { result ≡ counting.is_lost entry (meaning_of about) }
{
    matches!(entry.kind, Kind::Full | Kind::Long) && matches!(about, Message::Notice(_))
}

/// The action whose value or message audio takes.
fn input_taken(entry: Entry, about: Message) -> Option<u32>
    ensures { result ≡ counting.input_taken entry (meaning_of about) }
{
    if !is_on(Kind::Take, Ring::ControlToAudio, entry) {
        return None;
    }
    match about {
        Message::Input(action) => Some(action),
        _ => None,
    }
}
