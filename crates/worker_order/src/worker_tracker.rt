ghost use Rattle.std.specs.Prelude.{◌≡◌, ◌≤◌, ◌&&◌, ◌||◌, [], IfOk, IfSome};
ghost use Rattle.record_law.specs.Entries.{is_on};
ghost use Rattle.record_law.specs.Worker.{is_close};
ghost use Rattle.order_base.specs.Limits.{KeepsLimits};
ghost use Rattle.record_terms.specs.Message.{meaning_of};
ghost use Rattle.order_base.specs.There.{IsThere};
ghost use Rattle.worker_order.specs.TrackedWorker.{IsWorker, IsWorkerStep, WorkerStands, WorkerNext, WorkerGoes};

use crate::backs::{all_held, note_back};
use crate::locals::{none_sent, note_local};
use crate::worker::WorkerView;
use crate::worker_stage::{LocalCount, WorkerStage, WorkerStep};
use lv_base::{Items, NoMemory};
use record_law::Shape;
use record_terms::{Message, is_on};
use std::alloc::Global;
use step_law::{Entry, Kind, Ring};

/// What a worker is doing in a record, which backs it has, and which jobs its restores left behind.
#[derive(Drop)]
pub struct WorkerTracker {
    pub worker: u32,
    pub stage: WorkerStage,
    pub backs: Items<bool>,
    pub locals: Items<LocalCount>,
    /// It was told to stop.
    pub closed: bool,
}

impl WorkerTracker {
    /// This worker has done nothing yet.
    pub fn new(alloc: Global, shape: &Shape, worker: u32) -> Result<Self, NoMemory>
        requires { worker ≤ 8 }
        ensures worker { IfOk result (λ tracker. tracker.worker ≡ worker) }
        ensures tracker { IfOk result (IsWorker shape.now) }
        ensures stands { IfOk result (λ tracker. WorkerStands shape.now tracker []) }
    {
        let count = shape.insts.len();
        let backs = all_held(alloc, count)?;
        let locals = none_sent(alloc, count)?;
        Ok(WorkerTracker {
            worker,
            stage: WorkerStage::Serving,
            backs,
            locals,
            closed: false,
        })
    }

    /// What an entry of the worker's is about, if the worker may do it next. `None` leaves all as it was.
    pub fn step(&mut self, shape: &Shape, entry: Entry, brought: Message) -> Option<Message>
        requires limits { KeepsLimits shape.now }
        requires tracker { IsWorker shape.now self.old }
        requires brought { IsThere shape.now brought }
        ensures worker { self.new.worker ≡ self.old.worker }
        ensures tracker { IsWorker shape.now self.new }
        ensures about { IfSome result (IsThere shape.now) }
        ensures goes { WorkerGoes shape.now self.old self.new brought entry result }
    {
        let WorkerStep { about, stage } = self.next(shape, entry, brought)?;
        note_back(&mut self.backs, self.worker, entry, about);
        note_local(&mut self.locals, entry);
        self.closed = is_closed(self.closed, self.worker, entry, about);
        self.stage = stage;
        Some(about)
    }

    fn next(&self, shape: &Shape, entry: Entry, brought: Message) -> Option<WorkerStep>
        requires limits { KeepsLimits shape.now }
        requires tracker { IsWorker shape.now self.now }
        requires brought { IsThere shape.now brought }
        ensures judged { WorkerNext shape.now self.now brought entry result }
        ensures step { IfSome result (IsWorkerStep shape.now) }
    {
        let view = WorkerView {
            shape,
            worker: self.worker,
            backs: &self.backs,
            locals: &self.locals,
            closed: self.closed,
            entry,
            brought,
        };
        view.next(self.stage)
    }
}

// The worker is told to stop, or was.
fn is_closed(before: bool, worker: u32, entry: Entry, about: Message) -> bool
    requires { worker ≤ 8 }
    ensures { result ≡ is_on Kind.Take (Ring.ControlToWorker worker) entry && is_close (meaning_of about) || before }
{
    is_on(Kind::Take, Ring::ControlToWorker(worker), entry) && matches!(about, Message::Close)
        || before
}
