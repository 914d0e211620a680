ghost use Rattle.std.specs.Prelude.{true, ℕ, ◌≡◌, ◌<◌, ◌^◌, ◌∷◌, [], ◌++◌, length, IfSome};
ghost use Rattle.step_law.specs.Ring.{ring_number};
ghost use Rattle.record_law.specs.declared.shape.Shape.{Shape};
ghost use Rattle.record_law.specs.Entries.{same_entry};
ghost use Rattle.record_law.specs.Task.Task.{serving};
ghost use Rattle.record_law.specs.Worker.{effect};
ghost use Rattle.record_terms.specs.Message.{meaning_of};
ghost use Rattle.order_base.specs.There.{IsThere};
ghost use Rattle.worker_order.specs.Worker.{IsWorkerStage, worker_goes, worker_left, after_left};
ghost use Rattle.worker_order.specs.WorkerView.{AtStage, Serves, ServesFrom, IsView, IsStep};

use crate::backs::has_back;
use crate::locals::has_local;
use crate::worker_stage::{
    AfterWork, LocalCount, RestoreStage, WorkStage, WorkerStage, WorkerStep,
};
use lv_base::Items;
use order_base::{at_most, is_attempt};
use record_law::Shape;
use record_terms::{Message, is_same, worker_of, works};
use step_law::{Actor, Call, Entry, Ring};

/// What a worker judges an entry by: the session, what its own steps say, and what a take brings.
#[derive(Drop)]
pub(crate) struct WorkerView<'a> {
    pub(crate) shape: &'a Shape,
    pub(crate) worker: u32,
    pub(crate) backs: &'a Items<bool>,
    pub(crate) locals: &'a Items<LocalCount>,
    pub(crate) closed: bool,
    pub(crate) entry: Entry,
    pub(crate) brought: Message,
}

impl WorkerView<'_> {
    /// What the entry makes of a stage, if the worker may do it next.
    pub(crate) fn next(&self, stage: WorkerStage) -> Option<WorkerStep>
        requires view { IsView self.now }
        requires stage { IsWorkerStage self.now.shape.now stage }
        ensures judged { AtStage self.now stage result }
        ensures step { IfSome result (IsStep self.now) }
    {
        match stage {
            WorkerStage::Serving => self.serving(),
            WorkerStage::Working { inst, work, after } => self.working(inst, work, after),
            WorkerStage::SaveAsked { action, inst } => self.save_asked(action, inst),
            WorkerStage::Saving { action, inst } => self.saving(action, inst),
            WorkerStage::Restoring {
                action,
                inst,
                restore,
            } => self.restoring(action, inst, restore),
            WorkerStage::Answering(message) => self.answering(message),
            WorkerStage::Stopped => None,
        }
    }

    // It stops, or takes what control asks or a job.
    fn serving(&self) -> Option<WorkerStep>
        requires { IsView self.now }
        ensures judged { AtStage self.now WorkerStage.Serving result }
        ensures step { IfSome result (IsStep self.now) }
    {
        if is_same(Entry::stop(Actor::Worker(self.worker)), self.entry) {
            self.stopping()
        } else {
            self.taking()
        }
    }

    fn stopping(&self) -> Option<WorkerStep>
        ensures value { result ≡ worker_goes self.now.closed Message.Nothing WorkerStage.Stopped }
        ensures step { IfSome result (IsStep self.now) }
    {
        if self.closed {
            let about = Message::Nothing;
            let stage = WorkerStage::Stopped;
            Some(WorkerStep { about, stage })
        } else {
            None
        }
    }

    fn taking(&self) -> Option<WorkerStep>
        requires { IsView self.now }
        ensures judged { Serves self.now result }
        ensures step { IfSome result (IsStep self.now) }
    {
        match Ring::from_number(self.entry.a) {
            Ring::ControlToWorker(_) => self.asked(),
            Ring::Jobs(inst) => self.scheduled(inst),
            _ => None,
        }
    }

    fn asked(&self) -> Option<WorkerStep>
        requires { IsView self.now }
        ensures judged { ServesFrom self.now (Ring.ControlToWorker self.now.worker) result }
        ensures step { IfSome result (IsStep self.now) }
    {
        let take = Entry::take(
            Actor::Worker(self.worker),
            Ring::ControlToWorker(self.worker),
        );
        self.expect(take, self.brought, effect_of(self.brought))
    }

    fn scheduled(&self, inst: u32) -> Option<WorkerStep>
        requires view { IsView self.now }
        requires ring { ring_number (Ring.Jobs inst) < 2 ^ 32 }
        ensures judged { ServesFrom self.now (Ring.Jobs inst) result }
        ensures step { IfSome result (IsStep self.now) }
    {
        let mine = worker_of(self.shape, inst) == self.worker;
        let works = works(self.shape, inst);
        if mine && works && has_back(self.backs, inst) {
            let take = Entry::take(Actor::Worker(self.worker), Ring::Jobs(inst));
            let work = WorkStage::Taken;
            let after = AfterWork::Serve;
            self.expect(
                take,
                self.brought,
                WorkerStage::Working { inst, work, after },
            )
        } else {
            None
        }
    }

    fn working(&self, inst: u32, work: WorkStage, after: AfterWork) -> Option<WorkerStep>
        requires view { IsView self.now }
        requires inst { inst < length self.now.shape.now.insts }
        ensures judged { AtStage self.now (WorkerStage.Working inst work after) result }
        ensures step { IfSome result (IsStep self.now) }
    {
        match work {
            WorkStage::Taken => self.begin_work(inst, after),
            WorkStage::Attempting { most } => self.attempting(inst, most, after),
        }
    }

    fn begin_work(&self, inst: u32, after: AfterWork) -> Option<WorkerStep>
        requires view { IsView self.now }
        requires inst { inst < length self.now.shape.now.insts }
        ensures judged { AtStage self.now (WorkerStage.Working inst WorkStage.Taken after) result }
        ensures step { IfSome result (IsStep self.now) }
    {
        let begin = Entry::begin(Actor::Worker(self.worker), Call::Work, inst);
        let work = WorkStage::Attempting {
            most: at_most(true),
        };
        self.expect(
            begin,
            Message::Nothing,
            WorkerStage::Working { inst, work, after },
        )
    }

    fn attempting(&self, inst: u32, most: u32, after: AfterWork) -> Option<WorkerStep>
        requires view { IsView self.now }
        requires inst { inst < length self.now.shape.now.insts }
        ensures judged { AtStage self.now (WorkerStage.Working inst (WorkStage.Attempting most) after) result }
        ensures step { IfSome result (IsStep self.now) }
    {
        let worker = Actor::Worker(self.worker);
        if most > 0 && is_attempt(worker, Ring::Responses(inst), self.entry) {
            let work = WorkStage::Attempting { most: most - 1 };
            self.go_on(WorkerStage::Working { inst, work, after })
        } else {
            let end = Entry::end(worker, Call::Work, inst);
            self.expect(end, Message::Nothing, stage_after(inst, after))
        }
    }

    fn save_asked(&self, action: u32, inst: u32) -> Option<WorkerStep>
        requires view { IsView self.now }
        requires inst { inst < length self.now.shape.now.insts }
        ensures judged { AtStage self.now (WorkerStage.SaveAsked action inst) result }
        ensures step { IfSome result (IsStep self.now) }
    {
        let begin = Entry::begin(Actor::Worker(self.worker), Call::Save, inst);
        let about = Message::Save { action, inst };
        self.expect(begin, about, WorkerStage::Saving { action, inst })
    }

    fn saving(&self, action: u32, inst: u32) -> Option<WorkerStep>
        requires view { IsView self.now }
        requires inst { inst < length self.now.shape.now.insts }
        ensures judged { AtStage self.now (WorkerStage.Saving action inst) result }
        ensures step { IfSome result (IsStep self.now) }
    {
        let end = Entry::end(Actor::Worker(self.worker), Call::Save, inst);
        let answer = WorkerStage::Answering(Message::Answer(action));
        self.expect(end, Message::Nothing, answer)
    }

    fn restoring(&self, action: u32, inst: u32, restore: RestoreStage) -> Option<WorkerStep>
        requires view { IsView self.now }
        requires inst { inst < length self.now.shape.now.insts }
        ensures judged { AtStage self.now (WorkerStage.Restoring action inst restore) result }
        ensures step { IfSome result (IsStep self.now) }
    {
        match restore {
            RestoreStage::Asked => self.begin_restore(action, inst),
            RestoreStage::Trying { most } => self.trying(action, inst, most),
            RestoreStage::Ended => self.local_jobs(action, inst),
        }
    }

    fn begin_restore(&self, action: u32, inst: u32) -> Option<WorkerStep>
        requires view { IsView self.now }
        requires inst { inst < length self.now.shape.now.insts }
        ensures judged { AtStage self.now (WorkerStage.Restoring action inst RestoreStage.Asked) result }
        ensures step { IfSome result (IsStep self.now) }
    {
        let begin = Entry::begin(Actor::Worker(self.worker), Call::RestoreSafe, inst);
        let about = Message::Restore { action, inst };
        let restore = RestoreStage::Trying {
            most: at_most(works(self.shape, inst)),
        };
        let stage = WorkerStage::Restoring {
            action,
            inst,
            restore,
        };
        self.expect(begin, about, stage)
    }

    fn trying(&self, action: u32, inst: u32, most: u32) -> Option<WorkerStep>
        requires view { IsView self.now }
        requires inst { inst < length self.now.shape.now.insts }
        ensures judged { AtStage self.now (WorkerStage.Restoring action inst (RestoreStage.Trying most)) result }
        ensures step { IfSome result (IsStep self.now) }
    {
        let worker = Actor::Worker(self.worker);
        if most > 0 && is_attempt(worker, Ring::LocalJobs(inst), self.entry) {
            let restore = RestoreStage::Trying { most: most - 1 };
            self.go_on(WorkerStage::Restoring {
                action,
                inst,
                restore,
            })
        } else {
            let end = Entry::end(worker, Call::RestoreSafe, inst);
            let restore = RestoreStage::Ended;
            self.expect(
                end,
                Message::Nothing,
                WorkerStage::Restoring {
                    action,
                    inst,
                    restore,
                },
            )
        }
    }

    fn local_jobs(&self, action: u32, inst: u32) -> Option<WorkerStep>
        requires view { IsView self.now }
        requires inst { inst < length self.now.shape.now.insts }
        ensures judged { AtStage self.now (WorkerStage.Restoring action inst RestoreStage.Ended) result }
        ensures step { IfSome result (IsStep self.now) }
    {
        if has_local(self.locals, inst) {
            let take = Entry::take(Actor::Worker(self.worker), Ring::LocalJobs(inst));
            let work = WorkStage::Taken;
            let after = AfterWork::Restored { action };
            self.expect(
                take,
                self.brought,
                WorkerStage::Working { inst, work, after },
            )
        } else {
            self.answering(Message::Answer(action))
        }
    }

    fn answering(&self, message: Message) -> Option<WorkerStep>
        requires view { IsView self.now }
        requires message { IsThere self.now.shape.now message }
        ensures judged { AtStage self.now (WorkerStage.Answering message) result }
        ensures step { IfSome result (IsStep self.now) }
    {
        let send = Entry::send(
            Actor::Worker(self.worker),
            Ring::WorkerToControl(self.worker),
        );
        self.expect(send, message, WorkerStage::Serving)
    }

    // The worker goes on after an attempt.
    fn go_on(&self, stage: WorkerStage) -> Option<WorkerStep>
        requires { IsWorkerStage self.now.shape.now stage }
        ensures value { result ≡ worker_goes true Message.Body stage }
        ensures step { IfSome result (IsStep self.now) }
    {
        let about = Message::Body;
        Some(WorkerStep { about, stage })
    }

    // The worker goes on to a stage, if the entry is the one that is wanted.
    fn expect(&self, wanted: Entry, about: Message, stage: WorkerStage) -> Option<WorkerStep>
        requires about { IsThere self.now.shape.now about }
        requires stage { IsWorkerStage self.now.shape.now stage }
        ensures value { result ≡ worker_goes (same_entry wanted self.now.entry) about stage }
        ensures step { IfSome result (IsStep self.now) }
    {
        if is_same(wanted, self.entry) {
            Some(WorkerStep { about, stage })
        } else {
            None
        }
    }
}

// What a worker does about a message of control's.
fn effect_of(message: Message) -> WorkerStage
    ensures left { (s : Shape) (worker : ℕ) → worker_left s worker result ≡ effect s worker (meaning_of message) ++ serving worker ∷ [] }
    ensures stage { (s : Shape) → IsThere s message → IsWorkerStage s result }
{
    match message {
        Message::Save { action, inst } => WorkerStage::SaveAsked { action, inst },
        Message::Restore { action, inst } => WorkerStage::Restoring {
            action,
            inst,
            restore: RestoreStage::Asked,
        },
        Message::Lend(inst) => WorkerStage::Answering(Message::Part(inst)),
        _ => WorkerStage::Serving,
    }
}

// What a worker does after the work on a job of an instance.
fn stage_after(inst: u32, after: AfterWork) -> WorkerStage
    ensures left { (s : Shape) (worker : ℕ) → worker_left s worker result ≡ after_left worker inst after }
    ensures stage { (s : Shape) → inst < length s.insts → IsWorkerStage s result }
{
    match after {
        AfterWork::Serve => WorkerStage::Serving,
        AfterWork::Restored { action } => WorkerStage::Restoring {
            action,
            inst,
            restore: RestoreStage::Ended,
        },
    }
}
