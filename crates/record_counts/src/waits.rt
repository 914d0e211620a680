ghost use Rattle.std.specs.Prelude.{◌≡◌, ◌<◌, ◌≤◌, ◌+◌, ◌∷◌, ◌||◌, ◌&&◌, not, [], ℕ, nat_lt, nat_eq, length, replicate, slice_set, IfOk, true, false};
ghost use Rattle.std.specs.List.{list_all};
ghost use Rattle.step_law.specs.declared.actor.Actor.TheVariants.{Control, Worker};
ghost use Rattle.step_law.specs.declared.entry.Kind.TheVariants.{Stop, Join};
ghost use Rattle.step_law.specs.Actor.{actor_number};
ghost use Rattle.step_law.specs.Form.{is_ring};
ghost use Rattle.step_law.specs.Ring.{ring_number};
ghost use Rattle.step_law.specs.Entry.{take_of, join};
ghost use Rattle.record_law.specs.Control as control;
ghost use Rattle.record_law.specs.Entries as entries;
ghost use Rattle.record_law.specs.Entries.{same_entry};
ghost use Rattle.record_law.specs.History as history;
ghost use Rattle.record_law.specs.Message.{Message, History};
ghost use Rattle.record_law.specs.Shape as shapes;
ghost use Rattle.record_law.specs.Waits as spec;
ghost use Rattle.record_law.specs.Lasting as lasting;
ghost use Rattle.record_counts.specs.Rings.{CountsRings};
ghost use Rattle.record_terms.specs.Session.{IsSession};
ghost use Rattle.record_counts.specs.Step.{step_of};
ghost use Rattle.record_counts.specs.Waits as waited;

use crate::rings::RingCounts;
use lv_base::{Items, NoMemory};
use record_law::Shape;
use record_terms::{is_by, is_kind, is_same, worker_of, works};
use std::alloc::Global;
use step_law::{Actor, Call, Entry, Kind, Ring};

/// What is known of the activity of an instance.
#[derive(Clone, Copy)]
pub struct Activity {
    /// Its activation has ended.
    pub activated: bool,
    /// Its deactivation has begun.
    pub deactivated: bool,
}

/// What actors wait for of one another.
#[derive(Drop)]
pub struct Waits {
    pub(crate) insts: Items<Activity>,
    /// Whether an actor has stopped, by its number.
    pub(crate) stopped: Items<bool>,
    /// All instances were made and activated.
    pub(crate) is_open: bool,
    /// All actors but control have stopped, and control has seen it.
    pub(crate) is_joined: bool,
}

impl Activity {
    ghost use Rattle.std.specs.Prelude.{◌≡◌, false};
    ghost use Rattle.record_counts.specs.Waits.{next_activity};

    fn none() -> Activity
        ensures { result ≡ record { activated = false; deactivated = false } }
    {
        Activity {
            activated: false,
            deactivated: false,
        }
    }

    /// What is known of an instance after an entry.
    fn after(self, inst: u32, entry: Entry) -> Activity
        ensures { result ≡ next_activity inst entry self }
    {
        let activated = Entry::end(Actor::Control, Call::Activate, inst);
        let deactivated = Entry::begin(Actor::Control, Call::Deactivate, inst);
        let is_activated = is_same(activated, entry) || self.activated;
        let is_deactivated = is_same(deactivated, entry) || self.deactivated;
        Activity {
            activated: is_activated,
            deactivated: is_deactivated,
        }
    }
}

impl Waits {
    ghost use Rattle.record_counts.specs.declared.waits.Activity.{Activity};
    ghost use Rattle.record_counts.specs.Waits.{activity_at, is_of_call, stopped_at, TellsWaits};

    /// Nobody has done anything.
    pub fn new(alloc: Global, shape: &Shape) -> Result<Waits, NoMemory>
        requires { IsSession shape.now }
        ensures { IfOk result (TellsWaits shape.now []) }
    {
        let count = shape.insts.len();
        let insts = none_active(alloc, count)?;
        let stopped = none_stopped(alloc, 2 + shape.workers as usize)?;
        Ok(Waits {
            insts,
            stopped,
            is_open: count == 0,
            is_joined: false,
        })
    }

    /// Goes on by an entry.
    pub fn go_on(&mut self, entry: Entry)
        ensures { (shape : _) (h : History) (about : Message) → TellsWaits shape h self.old → TellsWaits shape (step_of entry about ∷ h) self.new }
    {
        match entry.kind {
            Kind::Begin | Kind::End => self.note_call(entry),
            Kind::Stop => self.note_stop(entry),
            Kind::Join => self.note_join(entry),
            _ => {}
        }
    }

    fn note_call(&mut self, entry: Entry)
        ensures { (shape : _) (h : History) (about : Message) → is_of_call entry.kind ≡ true → TellsWaits shape h self.old → TellsWaits shape (step_of entry about ∷ h) self.new }
    {
        let activity = self.activity(entry.b).after(entry.b, entry);
        self.put_activity(entry.b, activity);
        self.is_open = self.are_all_activated();
    }

    fn activity(&self, inst: u32) -> Activity
        ensures { (shape : _) (h : History) → TellsWaits shape h self.now → inst < length self.now.insts → result ≡ activity_at h inst }
    {
        match self.insts.get(inst as usize) {
            Some(activity) => *activity,
            None => Activity::none(),
        }
    }

    fn put_activity(&mut self, inst: u32, activity: Activity)
        ensures { self.new ≡ record self.old { insts = slice_set self.old.insts inst activity } }
    {
        if (inst as usize) < self.insts.len() {
            self.insts.set(inst as usize, activity);
        }
    }

    fn are_all_activated(&self) -> bool
        ensures { result ≡ list_all (λ (it : Activity). it.activated) self.now.insts }
    {
        self.insts.as_slice().iter().all(|it| it.activated)
    }

    fn note_stop(&mut self, entry: Entry)
        ensures { (shape : _) (h : History) (about : Message) → entry.kind ≡ Stop → TellsWaits shape h self.old → TellsWaits shape (step_of entry about ∷ h) self.new }
    {
        let stop = Entry::stop(Actor::from_number(entry.actor));
        let had_stopped = self.has_stopped(entry.actor);
        self.put_stopped(entry.actor, is_same(stop, entry) | had_stopped);
    }

    fn put_stopped(&mut self, actor: u32, stopped: bool)
        ensures { self.new ≡ record self.old { stopped = slice_set self.old.stopped actor stopped } }
    {
        if (actor as usize) < self.stopped.len() {
            self.stopped.set(actor as usize, stopped);
        }
    }

    fn note_join(&mut self, entry: Entry)
        ensures { (shape : _) (h : History) (about : Message) → entry.kind ≡ Join → TellsWaits shape h self.old → TellsWaits shape (step_of entry about ∷ h) self.new }
    {
        self.is_joined = is_same(Entry::join(), entry) || self.is_joined;
    }

    /// Whether an instance is activated, and its deactivation hasn't begun.
    pub fn is_active(&self, inst: u32) -> bool
        ensures { (shape : _) (h : History) → TellsWaits shape h self.now → inst < length shape.insts → result ≡ lasting.is_active inst h }
    {
        match self.insts.get(inst as usize) {
            Some(it) => it.activated && !it.deactivated,
            None => false,
        }
    }

    /// Whether the actor of an entry needn't wait for others.
    pub fn may_come(&self, rings: &RingCounts, shape: &Shape, entry: Entry) -> bool
        requires { IsSession shape.now }
        ensures { (h : History) → CountsRings shape.now h rings.now → TellsWaits shape.now h self.now → result ≡ spec.may_come shape.now h entry }
    {
        let may_act = is_by(Actor::Control, entry) || self.is_open;
        may_act
            && self.may_stop(rings, shape, entry)
            && self.may_join(shape, entry)
            && self.takes_what_is_left(rings, shape, entry)
    }

    fn may_stop(&self, rings: &RingCounts, shape: &Shape, entry: Entry) -> bool
        requires { IsSession shape.now }
        ensures { (h : History) → CountsRings shape.now h rings.now → result ≡ not (entries.is_kind Stop entry && spec.has_job shape.now h entry.actor) }
    {
        match entry.kind {
            Kind::Stop => !has_job(rings, shape, entry.actor),
            _ => true,
        }
    }

    fn may_join(&self, shape: &Shape, entry: Entry) -> bool
        requires { IsSession shape.now }
        ensures { (h : History) → TellsWaits shape.now h self.now → result ≡ (not (entries.is_kind Join entry) || spec.all_stopped shape.now h) }
    {
        match entry.kind {
            Kind::Join => self.have_all_stopped(shape),
            _ => true,
        }
    }

    fn have_all_stopped(&self, shape: &Shape) -> bool
        requires { IsSession shape.now }
        ensures { (h : History) → TellsWaits shape.now h self.now → result ≡ spec.all_stopped shape.now h }
    {
        for worker in 1..shape.workers + 1 {
            if !self.has_stopped(1 + worker) {
                return false;
            }
        }
        self.has_stopped(0)
    }

    fn has_stopped(&self, actor: u32) -> bool
        ensures { (shape : _) (h : History) → TellsWaits shape h self.now → actor < 2 + shape.workers → result ≡ stopped_at h actor }
    {
        match self.stopped.get(actor as usize) {
            Some(stopped) => *stopped,
            None => false,
        }
    }

    fn takes_what_is_left(&self, rings: &RingCounts, shape: &Shape, entry: Entry) -> bool
        requires { IsSession shape.now }
        ensures { (h : History) → CountsRings shape.now h rings.now → TellsWaits shape.now h self.now → result ≡ (not (entries.is_by Control entry && history.has join h) || spec.takes_first (control.rings_left shape.now) h entry) }
    {
        if is_by(Actor::Control, entry) && self.is_joined {
            takes_first(rings, shape, entry)
        } else {
            true
        }
    }
}

// Whether a job waits for an actor, if it is a worker.
fn has_job(rings: &RingCounts, shape: &Shape, actor: u32) -> bool
    requires { IsSession shape.now }
    ensures { (h : History) → CountsRings shape.now h rings.now → result ≡ spec.has_job shape.now h actor }
{
    for inst in 0..shape.insts.len() as u32 {
        if has_job_of(rings, shape, inst, actor) {
            return true;
        }
    }
    false
}

fn has_job_of(rings: &RingCounts, shape: &Shape, inst: u32, actor: u32) -> bool
    requires { inst < 32 }
    ensures { (h : History) → CountsRings shape.now h rings.now → inst < length shape.now.insts → result ≡ waited.has_job_of shape.now h actor inst }
{
    let is_waiting = is_left(rings, Ring::Jobs(inst));
    is_worker_of(shape, inst, actor) && works(shape, inst) && is_waiting
}

fn is_worker_of(shape: &Shape, inst: u32, actor: u32) -> bool
    ensures { result ≡ nat_eq (actor_number (Worker (shapes.worker_of shape.now inst))) actor }
{
    1 + u64::from(worker_of(shape, inst)) == u64::from(actor)
}

// Whether an entry takes from the first ring in which something is left for control, if there is one.
fn takes_first(rings: &RingCounts, shape: &Shape, entry: Entry) -> bool
    requires { IsSession shape.now }
    ensures { (h : History) → CountsRings shape.now h rings.now → result ≡ spec.takes_first (control.rings_left shape.now) h entry }
{
    if is_left(rings, Ring::AudioToControl) {
        return is_take(Ring::AudioToControl, entry);
    }
    for worker in 1..shape.workers + 1 {
        if is_left(rings, Ring::WorkerToControl(worker)) {
            return is_take(Ring::WorkerToControl(worker), entry);
        }
    }
    true
}

fn is_left(rings: &RingCounts, ring: Ring) -> bool
    requires { is_ring ring ≡ true }
    ensures { (shape : _) (h : History) → CountsRings shape h rings.now → ring_number ring < length rings.now → result ≡ nat_lt 0 (history.waiting ring h) }
{
    0 < rings.of(ring.number()).waiting()
}

fn is_take(ring: Ring, entry: Entry) -> bool
    requires { is_ring ring ≡ true }
    ensures { result ≡ same_entry (take_of Control ring) entry }
{
    is_same(Entry::take(Actor::Control, ring), entry)
}

fn none_active(alloc: Global, count: usize) -> Result<Items<Activity>, NoMemory>
    ensures { IfOk result (λ it. it ≡ replicate count (record { activated = false; deactivated = false })) }
{
    let insts = vec![in alloc; Activity::none(); count]?;
    Ok(Items::from_vec(insts))
}

fn none_stopped(alloc: Global, count: usize) -> Result<Items<bool>, NoMemory>
    ensures { IfOk result (λ it. it ≡ replicate count false) }
{
    let stopped = vec![in alloc; false; count]?;
    Ok(Items::from_vec(stopped))
}
