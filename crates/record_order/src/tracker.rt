ghost use Rattle.std.specs.Prelude.{◌≡◌, ◌+◌, [], length, true, IsTrue, IfOk, IfSome, OnOk, OnErr};
ghost use Rattle.step_law.specs.Actor.{actor_at, actor_number};
ghost use Rattle.record_law.specs.There.{is_actor_there, is_worker_there};
ghost use Rattle.step_law.specs.declared.actor.Actor.TheVariants as actor;
ghost use Rattle.record_law.specs.declared.shape.Shape.{Shape};
ghost use Rattle.record_law.specs.History.{own};
ghost use Rattle.record_law.specs.Message.{History};
ghost use Rattle.record_law.specs.Protocol.{left_after};
ghost use Rattle.order_base.specs.Limits.{KeepsLimits};
ghost use Rattle.order_base.specs.There.{IsThere};
ghost use Rattle.record_order.specs.Tracked.{IsTracker, Stands, Goes, HasWorkers};

use audio_order::AudioTracker;
use control_order::ControlTracker;
use lv_base::NoMemory;
use record_law::Shape;
use record_terms::Message;
use std::alloc::Global;
use step_law::{Actor, Entry};
use worker_order::WorkerTracker;

/// What each actor is doing in a record.
#[derive(Drop)]
pub struct Tracker {
    audio: AudioTracker,
    control: ControlTracker,
    workers: Vec<WorkerTracker>,
}

impl Tracker {
    /// No actor has done anything yet.
    pub fn new(alloc: Global, shape: &Shape) -> Result<Self, NoMemory>
        requires { KeepsLimits shape.now }
        ensures tracker { IfOk result (IsTracker shape.now) }
        ensures stands { IfOk result (λ tracker. Stands shape.now tracker []) }
    {
        let audio = AudioTracker::new(alloc, shape)?;
        let control = ControlTracker::new(shape);
        let workers = workers_of(alloc, shape)?;
        Ok(Tracker {
            audio,
            control,
            workers,
        })
    }

    /// What an entry is about, if its actor may do it next by its own steps. `brought` is the message that a take brings. `None` leaves
    /// all as it was.
    pub fn step(&mut self, shape: &Shape, entry: Entry, brought: Message) -> Option<Message>
        requires limits { KeepsLimits shape.now }
        requires tracker { IsTracker shape.now self.old }
        requires brought { IsThere shape.now brought }
        requires actor { is_actor_there shape.now (actor_at entry.actor) ≡ true }
        ensures tracker { IsTracker shape.now self.new }
        ensures about { IfSome result (IsThere shape.now) }
        ensures goes { Goes shape.now self.old self.new brought entry result }
    {
        match Actor::from_number(entry.actor) {
            Actor::Audio => self.step_audio(shape, entry, brought),
            Actor::Control => self.step_control(shape, entry, brought),
            Actor::Worker(worker) => self.step_worker(shape, worker, entry, brought),
        }
    }

    /// Whether control has ended the record, which it does once all actors have done their work.
    pub fn is_done(&self) -> bool
        ensures { IsTrue result → (s : Shape) (h : History) → Stands s self.now h → left_after s actor.Control (own actor.Control h) ≡ [] }
    {
        self.control.is_over()
    }

    fn step_audio(&mut self, shape: &Shape, entry: Entry, brought: Message) -> Option<Message>
        requires limits { KeepsLimits shape.now }
        requires tracker { IsTracker shape.now self.old }
        requires brought { IsThere shape.now brought }
        requires actor { entry.actor ≡ 0 }
        ensures tracker { IsTracker shape.now self.new }
        ensures about { IfSome result (IsThere shape.now) }
        ensures goes { Goes shape.now self.old self.new brought entry result }
    {
        self.audio.step(shape, entry, brought)
    }

    fn step_control(&mut self, shape: &Shape, entry: Entry, brought: Message) -> Option<Message>
        requires limits { KeepsLimits shape.now }
        requires tracker { IsTracker shape.now self.old }
        requires brought { IsThere shape.now brought }
        requires actor { entry.actor ≡ 1 }
        ensures tracker { IsTracker shape.now self.new }
        ensures about { IfSome result (IsThere shape.now) }
        ensures goes { Goes shape.now self.old self.new brought entry result }
    {
        self.control.step(shape, entry, brought)
    }

    fn step_worker(
        &mut self,
        shape: &Shape,
        worker: u32,
        entry: Entry,
        brought: Message,
    ) -> Option<Message>
        requires limits { KeepsLimits shape.now }
        requires tracker { IsTracker shape.now self.old }
        requires brought { IsThere shape.now brought }
        requires actor { entry.actor ≡ 1 + worker }
        requires worker { is_worker_there shape.now worker ≡ true }
        ensures tracker { IsTracker shape.now self.new }
        ensures about { IfSome result (IsThere shape.now) }
        ensures goes { Goes shape.now self.old self.new brought entry result }
    {
        let index = (worker - 1) as usize;
        self.workers[index].step(shape, entry, brought)
    }
}

// The workers of a session, none of which has done anything yet.
fn workers_of(alloc: Global, shape: &Shape) -> Result<Vec<WorkerTracker>, NoMemory>
    requires { KeepsLimits shape.now }
    ensures { IfOk result (λ workers. HasWorkers shape.now workers.items shape.now.workers) }
{
    let mut workers = Vec::new(alloc);
    for index in 0..shape.workers {
        workers.push(WorkerTracker::new(alloc, shape, index + 1)?)?;
    }
    Ok(workers)
}
