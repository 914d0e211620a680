ghost use Rattle.std.specs.Prelude.{◌≡◌, ◌==◌, ◌||◌, not, ◌<◌, ◌∷◌, [], length, slice_get, slice_set, unwrap_or, filter, IfOk, true};
ghost use Rattle.step_law.specs.declared.call.Call.TheVariants.{Run};
ghost use Rattle.step_law.specs.declared.entry.Kind.TheVariants.{Begin, End};
ghost use Rattle.std.specs.List.{list_all};
ghost use Rattle.step_law.specs.Call.{call_number};
ghost use Rattle.record_law.specs.Message.{Message, History};
ghost use Rattle.record_law.specs.Lasting as spec;
ghost use Rattle.record_law.specs.There.{has_form};
ghost use Rattle.record_law.specs.Threading as threading;
ghost use Rattle.record_counts.specs.Step.{step_of};
ghost use Rattle.record_counts.specs.Calls as calls;
ghost use Rattle.record_counts.specs.Waits as waited;

use crate::waits::Waits;
use lv_base::{Items, NoMemory};
use record_law::Shape;
use std::alloc::Global;
use std::marker::Model;
use step_law::{Call, Entry, Kind};

/// A call that has begun and not ended.
#[derive(Clone, Copy)]
pub struct OpenCall {
    /// The number of the actor that makes it.
    pub actor: u32,
    pub call: Call,
}

/// The calls that last on an instance, the newest first. Of three some two can't overlap, so there are two at most.
#[derive(Clone, Copy)]
pub enum InstCalls {
    Quiet,
    One(OpenCall),
    Two(OpenCall, OpenCall),
}

impl OpenCall {
    ghost use Rattle.std.specs.Prelude.{◌≡◌};
    ghost use Rattle.step_law.specs.Call.{call_number};
    ghost use Rattle.record_law.specs.Lasting.{is_other};
    ghost use Rattle.record_counts.specs.Calls.{lasting_of};

    fn is_other(self, than: OpenCall) -> bool
        ensures { result ≡ is_other than.actor (call_number than.call) (lasting_of self) }
    {
        !(self.actor == than.actor && self.call.number() == than.call.number())
    }
}

impl InstCalls {
    ghost use Rattle.std.specs.Prelude.{◌≡◌, ◌∷◌, filter, true};
    ghost use Rattle.std.specs.List.{list_all};
    ghost use Rattle.step_law.specs.Call.{call_number};
    ghost use Rattle.record_law.specs.Lasting.{Lasting, is_other, may_overlap_at};
    ghost use Rattle.record_counts.specs.Calls.{lasting_of, calls_of, IsApart};

    /// Whether a call may overlap all that last.
    fn may_begin(self, call: Call) -> bool
        ensures { result ≡ list_all (λ (it : Lasting). may_overlap_at (call_number call) it.1) (calls_of self) }
    {
        match self {
            InstCalls::Quiet => true,
            InstCalls::One(it) => may_overlap(call, it.call),
            InstCalls::Two(it, other) => {
                may_overlap(call, it.call) && may_overlap(call, other.call)
            }
        }
    }

    /// One more call begins, which may overlap all that last.
    fn with(self, it: OpenCall) -> InstCalls
        ensures { IsApart self → list_all (λ (other : Lasting). may_overlap_at (call_number it.call) other.1) (calls_of self) ≡ true → (calls_of result ≡ lasting_of it ∷ calls_of self) × IsApart result }
    {
        match self {
            InstCalls::Quiet => InstCalls::One(it),
            InstCalls::One(other) => InstCalls::Two(it, other),
            InstCalls::Two(_, _) => self,
        }
    }

    /// A call has ended.
    fn without(self, ended: OpenCall) -> InstCalls
        ensures same { calls_of result ≡ filter (is_other ended.actor (call_number ended.call)) (calls_of self) }
        ensures apart { IsApart self → IsApart result }
    {
        match self {
            InstCalls::Quiet => InstCalls::Quiet,
            InstCalls::One(it) => one_without(it, ended),
            InstCalls::Two(it, other) => {
                if !it.is_other(ended) {
                    one_without(other, ended)
                } else if other.is_other(ended) {
                    self
                } else {
                    InstCalls::One(it)
                }
            }
        }
    }
}

fn one_without(it: OpenCall, ended: OpenCall) -> InstCalls
    ensures same { calls.calls_of result ≡ filter (spec.is_other ended.actor (call_number ended.call)) (calls.lasting_of it ∷ []) }
    ensures apart { calls.IsApart result }
{
    if it.is_other(ended) {
        InstCalls::One(it)
    } else {
        InstCalls::Quiet
    }
}

// Whether two calls may overlap on one instance.
fn may_overlap(call: Call, other: Call) -> bool
    ensures { result ≡ threading.may_overlap call other }
{
    (call.is_by_audio() && other.is_by_worker()) || (call.is_by_worker() && other.is_by_audio())
}

/// The calls that last on each instance.
#[derive(Drop)]
pub struct OpenCalls {
    insts: Items<InstCalls>,
}

impl Model for OpenCalls {
    ghost use Rattle.std.specs.Prelude.{List};
    ghost use Rattle.record_counts.specs.declared.calls.InstCalls.{InstCalls};

    ghost Value = { List InstCalls };

    ghost view = { λ it. it.insts };
}

impl OpenCalls {
    ghost use Rattle.record_counts.specs.declared.calls.InstCalls.TheVariants.{Quiet};
    ghost use Rattle.record_counts.specs.Calls.{TellsCalls};
    ghost use Rattle.record_counts.specs.Waits.{TellsWaits};

    /// No call has begun.
    pub fn new(alloc: Global, shape: &Shape) -> Result<OpenCalls, NoMemory>
        ensures { IfOk result (TellsCalls shape.now []) }
    {
        let insts = vec![in alloc; InstCalls::Quiet; shape.insts.len()]?;
        Ok(OpenCalls {
            insts: Items::from_vec(insts),
        })
    }

    /// Goes on by an entry that keeps the classes.
    pub fn go_on(&mut self, entry: Entry)
        ensures { (shape : _) (h : History) (about : Message) → has_form shape entry ≡ true → spec.keeps_class h entry.kind entry.a entry.b ≡ true → TellsCalls shape h self.old → TellsCalls shape (step_of entry about ∷ h) self.new }
    {
        match entry.kind {
            Kind::Begin => self.begin(entry),
            Kind::End => self.end(entry),
            _ => {}
        }
    }

    fn begin(&mut self, entry: Entry)
        ensures { (shape : _) (h : History) (about : Message) → entry.kind ≡ Begin → has_form shape entry ≡ true → spec.keeps_class h entry.kind entry.a entry.b ≡ true → TellsCalls shape h self.old → TellsCalls shape (step_of entry about ∷ h) self.new }
    {
        let calls = self.of(entry.b);
        if let Some(call) = Call::from_number(entry.a) {
            let actor = entry.actor;
            self.put(entry.b, calls.with(OpenCall { actor, call }));
        }
    }

    fn end(&mut self, entry: Entry)
        ensures { (shape : _) (h : History) (about : Message) → entry.kind ≡ End → has_form shape entry ≡ true → spec.keeps_class h entry.kind entry.a entry.b ≡ true → TellsCalls shape h self.old → TellsCalls shape (step_of entry about ∷ h) self.new }
    {
        let calls = self.of(entry.b);
        if let Some(call) = Call::from_number(entry.a) {
            let actor = entry.actor;
            self.put(entry.b, calls.without(OpenCall { actor, call }));
        }
    }

    fn of(&self, inst: u32) -> InstCalls
        ensures { result ≡ unwrap_or (slice_get self.now inst) Quiet }
    {
        match self.insts.get(inst as usize) {
            Some(calls) => *calls,
            None => InstCalls::Quiet,
        }
    }

    fn put(&mut self, inst: u32, calls: InstCalls)
        ensures { self.new ≡ slice_set self.old inst calls }
    {
        if (inst as usize) < self.insts.len() {
            self.insts.set(inst as usize, calls);
        }
    }

    /// Whether a call that begins may overlap all that last on its instance, and a run finds it active; true of any other entry.
    pub fn keeps_class(&self, waits: &Waits, entry: Entry) -> bool
        ensures { (shape : _) (h : History) → TellsCalls shape h self.now → TellsWaits shape h waits.now → has_form shape entry ≡ true → result ≡ spec.keeps_class h entry.kind entry.a entry.b }
    {
        match entry.kind {
            Kind::Begin => self.may_begin(waits, entry),
            _ => true,
        }
    }

    fn may_begin(&self, waits: &Waits, entry: Entry) -> bool
        ensures { (shape : _) (h : History) → TellsCalls shape h self.now → TellsWaits shape h waits.now → entry.kind ≡ Begin → has_form shape entry ≡ true → result ≡ spec.keeps_class h Begin entry.a entry.b }
    {
        let calls = self.of(entry.b);
        match Call::from_number(entry.a) {
            Some(call) => calls.may_begin(call) && is_run_in_time(waits, call, entry.b),
            None => true,
        }
    }
}

// Whether a call isn't a run, or its instance is active.
fn is_run_in_time(waits: &Waits, call: Call, inst: u32) -> bool
    ensures { (shape : _) (h : History) → waited.TellsWaits shape h waits.now → inst < length shape.insts → result ≡ (not (call_number call == call_number Run) || spec.is_active inst h) }
{
    match call {
        Call::Run => waits.is_active(inst),
        _ => true,
    }
}
