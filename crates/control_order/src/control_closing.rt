ghost use Rattle.std.specs.Prelude.{◌≡◌, ◌<◌, ◌≤◌, ◌+◌, ◌∷◌, ◌++◌, true, length, slice_get, IfSome, MatchOption};
ghost use Rattle.step_law.specs.Entry.{take_of, end_of};
ghost use Rattle.record_law.specs.Actions.{finish};
ghost use Rattle.record_law.specs.Message.Message.{nothing};
ghost use Rattle.record_law.specs.Task.Task.{one};
ghost use Rattle.record_law.specs.Entries.{same_entry};
ghost use Rattle.control_order.specs.Control.{IsClosingStage, IsFinishStage, control_goes, finish_left};
ghost use Rattle.control_order.specs.ControlView.{AtStage, IsView, IsStep, Judges, TakesLeft, TakesNone};

use crate::control::ControlView;
use crate::control_stage::{ClosingStage, ControlStage, ControlStep, FinishStage, Round};
use record_law::{ActionKind, ShapeAction};
use record_terms::{Message, is_same};
use step_law::{Actor, Call, Entry, Ring};

impl ControlView<'_> {
    /// Control tells workers to stop, waits for all others, and takes what is left.
    pub(crate) fn closing(&self, unfinished: u32, stage: ClosingStage) -> Option<ControlStep>
        requires view { IsView self.now }
        requires unfinished { unfinished ≤ length self.now.shape.now.actions }
        requires stage { IsClosingStage self.now.shape.now stage }
        ensures judged { AtStage self.now (ControlStage.Closing unfinished stage) result }
        ensures step { IfSome result (IsStep self.now) }
    {
        match stage {
            ClosingStage::Telling { worker } => self.telling(unfinished, worker),
            ClosingStage::Taking { ring } => match ring {
                Ring::WorkerToControl(worker) => self.taking_from(unfinished, worker),
                _ => self.taking(unfinished),
            },
        }
    }

    fn telling(&self, unfinished: u32, worker: u32) -> Option<ControlStep>
        requires view { IsView self.now }
        requires unfinished { unfinished ≤ length self.now.shape.now.actions }
        requires worker { IsClosingStage self.now.shape.now (ClosingStage.Telling worker) }
        ensures judged { AtStage self.now (ControlStage.Closing unfinished (ClosingStage.Telling worker)) result }
        ensures step { IfSome result (IsStep self.now) }
    {
        if worker > self.shape.workers {
            let ring = Ring::AudioToControl;
            let stage = ClosingStage::Taking { ring };
            self.expect(
                Entry::join(),
                Message::Nothing,
                ControlStage::Closing { unfinished, stage },
            )
        } else if is_same(
            Entry::take(Actor::Control, Ring::AudioToControl),
            self.entry,
        ) {
            let stage = ClosingStage::Telling { worker };
            self.close_on(unfinished, stage)
        } else {
            let send = Entry::send(Actor::Control, Ring::ControlToWorker(worker));
            let worker = worker + 1;
            let stage = ClosingStage::Telling { worker };
            self.expect(
                send,
                Message::Close,
                ControlStage::Closing { unfinished, stage },
            )
        }
    }

    fn taking(&self, unfinished: u32) -> Option<ControlStep>
        requires view { IsView self.now }
        requires unfinished { unfinished ≤ length self.now.shape.now.actions }
        ensures judged { AtStage self.now (ControlStage.Closing unfinished (ClosingStage.Taking Ring.AudioToControl)) result }
        ensures step { IfSome result (IsStep self.now) }
    {
        let ring = Ring::AudioToControl;
        if is_same(Entry::take(Actor::Control, ring), self.entry) {
            self.close_on(unfinished, ClosingStage::Taking { ring })
        } else {
            self.taking_from(unfinished, 1)
        }
    }

    fn taking_from(&self, unfinished: u32, first: u32) -> Option<ControlStep>
        requires view { IsView self.now }
        requires unfinished { unfinished ≤ length self.now.shape.now.actions }
        ensures judged { TakesLeft self.now unfinished first result }
        ensures step { IfSome result (IsStep self.now) }
    {
        match self.taken_from(first) {
            Some(worker) => {
                let ring = Ring::WorkerToControl(worker);
                self.close_on(unfinished, ClosingStage::Taking { ring })
            }
            None => self.finish(unfinished),
        }
    }

    // The worker, from one on, from whose ring the entry takes.
    fn taken_from(&self, first: u32) -> Option<u32>
        requires { IsView self.now }
        ensures { MatchOption result (TakesNone self.now first (self.now.shape.now.workers + 1))
            (λ worker. (first ≤ worker) × (worker ≤ self.now.shape.now.workers) × (same_entry (take_of Actor.Control (Ring.WorkerToControl worker)) self.now.entry ≡ true) × TakesNone self.now first worker) }
    {
        for worker in first..self.shape.workers + 1 {
            let take = Entry::take(Actor::Control, Ring::WorkerToControl(worker));
            if is_same(take, self.entry) {
                return Some(worker);
            }
        }
        None
    }

    // What control takes at the end changes nothing.
    fn close_on(&self, unfinished: u32, stage: ClosingStage) -> Option<ControlStep>
        requires view { IsView self.now }
        requires unfinished { unfinished ≤ length self.now.shape.now.actions }
        requires stage { IsClosingStage self.now.shape.now stage }
        ensures value { result ≡ control_goes true self.now.brought (ControlStage.Closing unfinished stage) }
        ensures step { IfSome result (IsStep self.now) }
    {
        let about = self.brought;
        let stage = ControlStage::Closing { unfinished, stage };
        Some(ControlStep { about, stage })
    }

    /// Control does the actions from one on directly.
    pub(crate) fn finishing(&self, action: u32, stage: FinishStage) -> Option<ControlStep>
        requires view { IsView self.now }
        requires stage { IsFinishStage self.now.shape.now action stage }
        ensures judged { AtStage self.now (ControlStage.Finishing action stage) result }
        ensures step { IfSome result (IsStep self.now) }
    {
        match stage {
            FinishStage::Next => self.finish(action),
            FinishStage::Saving { inst } => self.finished(Call::Save, action, inst),
            FinishStage::Restoring { inst } => self.finished(Call::Restore, action, inst),
        }
    }

    fn finish(&self, action: u32) -> Option<ControlStep>
        requires view { IsView self.now }
        requires action { action ≤ length self.now.shape.now.actions }
        ensures judged { Judges self.now (finish_left self.now.shape.now action) result }
        ensures step { IfSome result (IsStep self.now) }
    {
        match self.shape.actions.get(action as usize).copied() {
            Some(it) => self.finish_one(action, it),
            None => self.clean(),
        }
    }

    fn finish_one(&self, action: u32, it: ShapeAction) -> Option<ControlStep>
        requires view { IsView self.now }
        requires it { slice_get self.now.shape.now.actions action ≡ Some it }
        ensures judged { Judges self.now (finish it.kind action it.inst ++ finish_left self.now.shape.now (action + 1)) result }
        ensures step { IfSome result (IsStep self.now) }
    {
        let inst = it.inst;
        match it.kind {
            ActionKind::Set | ActionKind::Patch => {
                let late = Entry::late(action);
                let action = action + 1;
                let stage = FinishStage::Next;
                self.expect(
                    late,
                    Message::Nothing,
                    ControlStage::Finishing { action, stage },
                )
            }
            ActionKind::Save => {
                let begin = Entry::begin(Actor::Control, Call::Save, inst);
                let about = Message::Save { action, inst };
                let stage = FinishStage::Saving { inst };
                self.expect(begin, about, ControlStage::Finishing { action, stage })
            }
            ActionKind::RestoreSafe | ActionKind::Restore => {
                let begin = Entry::begin(Actor::Control, Call::Restore, inst);
                let about = Message::Restore { action, inst };
                let stage = FinishStage::Restoring { inst };
                self.expect(begin, about, ControlStage::Finishing { action, stage })
            }
        }
    }

    fn finished(&self, call: Call, action: u32, inst: u32) -> Option<ControlStep>
        requires view { IsView self.now }
        requires action { action < length self.now.shape.now.actions }
        ensures judged { Judges self.now (one (end_of Actor.Control call inst) nothing ∷ finish_left self.now.shape.now (action + 1)) result }
        ensures step { IfSome result (IsStep self.now) }
    {
        let end = Entry::end(Actor::Control, call, inst);
        let action = action + 1;
        let stage = FinishStage::Next;
        self.expect(
            end,
            Message::Nothing,
            ControlStage::Finishing { action, stage },
        )
    }

    fn clean(&self) -> Option<ControlStep>
        requires { IsView self.now }
        ensures judged { Judges self.now (finish_left self.now.shape.now (length self.now.shape.now.actions)) result }
        ensures step { IfSome result (IsStep self.now) }
    {
        if self.shape.insts.is_empty() {
            self.ending()
        } else {
            self.begin_call(Round::Deactivate, 0)
        }
    }
}
