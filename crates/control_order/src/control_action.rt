ghost use Rattle.std.specs.Prelude.{◌≡◌, ℕ, ◌<◌, ◌≤◌, ◌+◌, ◌∷◌, ◌++◌, true, length, IfSome, slice_get};
ghost use Rattle.record_law.specs.declared.shape.Shape.{Shape};
ghost use Rattle.record_law.specs.Actions.{stages_of};
ghost use Rattle.record_law.specs.Control.{is_part, stages_after};
ghost use Rattle.record_law.specs.Shape.{worker_of};
ghost use Rattle.record_law.specs.Task.Stage.{due, tell, ask, hear};
ghost use Rattle.control_order.specs.Control.{IsActionStage, actions_left, plain_left, stages_left, front_come, control_goes};
ghost use Rattle.control_order.specs.ControlView.{Acts, AtStage, Ends, IsView, IsStep, sees_block};
ghost use Rattle.record_terms.specs.Message.{meaning_of};
ghost use Rattle.order_base.specs.There.{IsThere};

use crate::control::ControlView;
use crate::control_stage::{ActionStage, ClosingStage, ControlStage, ControlStep, PlainStage};
use crate::progress::is_reached;
use record_law::{ActionKind, ShapeAction};
use record_terms::{Message, is_same, worker_of};
use step_law::{Actor, Call, Entry, Ring};

impl ControlView<'_> {
    /// Control takes what audio sends, or does the next of an action.
    pub(crate) fn acting(&self, action: u32, stage: ActionStage) -> Option<ControlStep>
        requires view { IsView self.now }
        requires stage { IsActionStage self.now.shape.now action stage }
        ensures judged { AtStage self.now (ControlStage.Acting action stage) result }
        ensures step { IfSome result (IsStep self.now) }
    {
        let take = Entry::take(Actor::Control, Ring::AudioToControl);
        if is_same(take, self.entry) {
            let stage = stage_after(stage, self.brought);
            self.act_on(self.brought, action, stage)
        } else {
            self.act(action, stage)
        }
    }

    fn act(&self, action: u32, stage: ActionStage) -> Option<ControlStep>
        requires view { IsView self.now }
        requires stage { IsActionStage self.now.shape.now action stage }
        ensures judged { Acts self.now (stages_left self.now.shape.now action stage) result }
        ensures step { IfSome result (IsStep self.now) }
    {
        match stage {
            ActionStage::Due => self.due(action),
            ActionStage::Tell => self.tell_input(action),
            ActionStage::Ask { inst, message } => {
                self.ask(inst, message, action, ActionStage::Hear { inst })
            }
            ActionStage::Hear { inst } => self.hear(inst, action + 1, ActionStage::Due),
            ActionStage::Plain { inst, plain } => self.act_plain(action, inst, plain),
        }
    }

    fn act_plain(&self, action: u32, inst: u32, plain: PlainStage) -> Option<ControlStep>
        requires view { IsView self.now }
        requires action { action < length self.now.shape.now.actions }
        requires inst { inst < length self.now.shape.now.insts }
        ensures judged { Acts self.now (plain_left self.now.shape.now action inst plain) result }
        ensures step { IfSome result (IsStep self.now) }
    {
        match plain {
            PlainStage::AskFront => self.ask_front(action, inst),
            PlainStage::AwaitFront => self.ends(action),
            PlainStage::AskBack => {
                let plain = PlainStage::TakeBack;
                let message = Message::Lend(inst);
                self.ask(inst, message, action, ActionStage::Plain { inst, plain })
            }
            PlainStage::TakeBack => {
                let plain = PlainStage::Begin;
                self.hear(inst, action, ActionStage::Plain { inst, plain })
            }
            PlainStage::Begin => {
                let begin = Entry::begin(Actor::Control, Call::Restore, inst);
                let about = Message::Restore { action, inst };
                self.expect(begin, about, ControlStage::Restoring { action, inst })
            }
            PlainStage::GiveBack => {
                let plain = PlainStage::GiveFront;
                let message = Message::Give(inst);
                self.ask(inst, message, action, ActionStage::Plain { inst, plain })
            }
            PlainStage::GiveFront => {
                let next = action + 1;
                self.tell(next, Message::Give(inst), next, ActionStage::Due)
            }
        }
    }

    /// Control ends a restore, and then gives both parts away.
    pub(crate) fn restoring(&self, action: u32, inst: u32) -> Option<ControlStep>
        requires action { action < length self.now.shape.now.actions }
        requires inst { inst < length self.now.shape.now.insts }
        ensures judged { AtStage self.now (ControlStage.Restoring action inst) result }
        ensures step { IfSome result (IsStep self.now) }
    {
        let end = Entry::end(Actor::Control, Call::Restore, inst);
        let plain = PlainStage::GiveBack;
        let stage = ActionStage::Plain { inst, plain };
        self.expect(
            end,
            Message::Nothing,
            ControlStage::Acting { action, stage },
        )
    }

    fn due(&self, action: u32) -> Option<ControlStep>
        requires view { IsView self.now }
        requires action { action ≤ length self.now.shape.now.actions }
        ensures judged { Acts self.now (actions_left self.now.shape.now action) result }
        ensures step { IfSome result (IsStep self.now) }
    {
        match self.shape.actions.get(action as usize).copied() {
            Some(it) => self.due_at(action, it),
            None => self.ends(action),
        }
    }

    fn due_at(&self, action: u32, it: ShapeAction) -> Option<ControlStep>
        requires view { IsView self.now }
        requires it { slice_get self.now.shape.now.actions action ≡ Some it }
        ensures judged { Acts self.now ((action, due it.block) ∷ stages_of it.kind action it.inst (worker_of self.now.shape.now it.inst) ++ actions_left self.now.shape.now (action + 1)) result }
        ensures step { IfSome result (IsStep self.now) }
    {
        if is_reached(self.progress, it.block) {
            self.begin_action(action, it)
        } else if self.sees(it.block) {
            self.act_on(Message::Nothing, action, first_stage(action, it))
        } else {
            self.ends(action)
        }
    }

    // Control sees that a block is reached, and that audio hasn't stopped.
    fn sees(&self, block: u32) -> bool
        ensures { result ≡ sees_block self.now block }
    {
        let progress = self.entry.a;
        is_same(Entry::beat(progress), self.entry)
            && block <= progress
            && progress <= self.shape.blocks
    }

    fn begin_action(&self, action: u32, it: ShapeAction) -> Option<ControlStep>
        requires view { IsView self.now }
        requires it { slice_get self.now.shape.now.actions action ≡ Some it }
        ensures judged { Acts self.now (stages_of it.kind action it.inst (worker_of self.now.shape.now it.inst) ++ actions_left self.now.shape.now (action + 1)) result }
        ensures step { IfSome result (IsStep self.now) }
    {
        let inst = it.inst;
        match it.kind {
            ActionKind::Set | ActionKind::Patch => self.tell_input(action),
            ActionKind::Save => {
                let message = Message::Save { action, inst };
                self.ask(inst, message, action, ActionStage::Hear { inst })
            }
            ActionKind::RestoreSafe => {
                let message = Message::Restore { action, inst };
                self.ask(inst, message, action, ActionStage::Hear { inst })
            }
            ActionKind::Restore => self.ask_front(action, inst),
        }
    }

    fn tell_input(&self, action: u32) -> Option<ControlStep>
        requires view { IsView self.now }
        requires action { action < length self.now.shape.now.actions }
        ensures judged { Acts self.now (stages_left self.now.shape.now action ActionStage.Tell) result }
        ensures step { IfSome result (IsStep self.now) }
    {
        self.tell(action, Message::Input(action), action + 1, ActionStage::Due)
    }

    fn ask_front(&self, action: u32, inst: u32) -> Option<ControlStep>
        requires view { IsView self.now }
        requires action { action < length self.now.shape.now.actions }
        requires inst { inst < length self.now.shape.now.insts }
        ensures judged { Acts self.now (plain_left self.now.shape.now action inst PlainStage.AskFront) result }
        ensures step { IfSome result (IsStep self.now) }
    {
        let plain = PlainStage::AwaitFront;
        let message = Message::Lend(inst);
        self.tell(action, message, action, ActionStage::Plain { inst, plain })
    }

    // Control tells audio something and goes on with an action, or its actions end.
    fn tell(
        &self,
        unfinished: u32,
        message: Message,
        action: u32,
        stage: ActionStage,
    ) -> Option<ControlStep>
        requires view { IsView self.now }
        requires unfinished { unfinished ≤ length self.now.shape.now.actions }
        requires message { IsThere self.now.shape.now message }
        requires stage { IsActionStage self.now.shape.now action stage }
        ensures judged { Acts self.now ((unfinished, tell (meaning_of message)) ∷ stages_left self.now.shape.now action stage) result }
        ensures step { IfSome result (IsStep self.now) }
    {
        let send = Entry::send(Actor::Control, Ring::ControlToAudio);
        if is_same(send, self.entry) {
            self.act_on(message, action, stage)
        } else {
            self.ends(unfinished)
        }
    }

    // Control asks an instance's worker something and goes on with an action.
    fn ask(
        &self,
        inst: u32,
        message: Message,
        action: u32,
        stage: ActionStage,
    ) -> Option<ControlStep>
        requires view { IsView self.now }
        requires message { IsThere self.now.shape.now message }
        requires stage { IsActionStage self.now.shape.now action stage }
        ensures judged { (k : ℕ) → Acts self.now ((k, ask (worker_of self.now.shape.now inst) (meaning_of message)) ∷ stages_left self.now.shape.now action stage) result }
        ensures step { IfSome result (IsStep self.now) }
    {
        let ring = Ring::ControlToWorker(worker_of(self.shape, inst));
        let send = Entry::send(Actor::Control, ring);
        self.expect(send, message, ControlStage::Acting { action, stage })
    }

    // Control takes what an instance's worker answers and goes on with an action.
    fn hear(&self, inst: u32, action: u32, stage: ActionStage) -> Option<ControlStep>
        requires view { IsView self.now }
        requires stage { IsActionStage self.now.shape.now action stage }
        ensures judged { (k : ℕ) → Acts self.now ((k, hear (worker_of self.now.shape.now inst)) ∷ stages_left self.now.shape.now action stage) result }
        ensures step { IfSome result (IsStep self.now) }
    {
        let ring = Ring::WorkerToControl(worker_of(self.shape, inst));
        let take = Entry::take(Actor::Control, ring);
        self.expect(take, self.brought, ControlStage::Acting { action, stage })
    }

    // Control has seen that audio has stopped, which ends the actions.
    fn ends(&self, unfinished: u32) -> Option<ControlStep>
        requires view { IsView self.now }
        requires unfinished { unfinished ≤ length self.now.shape.now.actions }
        ensures judged { Ends self.now unfinished result }
        ensures step { IfSome result (IsStep self.now) }
    {
        let stage = ClosingStage::Telling { worker: 1 };
        let beat = Entry::beat(self.shape.blocks + 1);
        self.expect(
            beat,
            Message::Nothing,
            ControlStage::Closing { unfinished, stage },
        )
    }

    // Control goes on with an action.
    fn act_on(&self, about: Message, action: u32, stage: ActionStage) -> Option<ControlStep>
        requires about { IsThere self.now.shape.now about }
        requires stage { IsActionStage self.now.shape.now action stage }
        ensures value { result ≡ control_goes true about (ControlStage.Acting action stage) }
        ensures step { IfSome result (IsStep self.now) }
    {
        let stage = ControlStage::Acting { action, stage };
        Some(ControlStep { about, stage })
    }
}

// The stage after control took a message of audio's: the front that it waits for may have come.
fn stage_after(stage: ActionStage, brought: Message) -> ActionStage
    ensures left { (s : Shape) (action : ℕ) → stages_left s action result ≡ stages_after (meaning_of brought) (stages_left s action stage) }
    ensures stage { (s : Shape) (action : ℕ) → IsActionStage s action stage → IsActionStage s action result }
{
    match front_come(stage, brought) {
        Some(inst) => ActionStage::Plain {
            inst,
            plain: PlainStage::AskBack,
        },
        None => stage,
    }
}

// The instance whose front control waited for and took.
fn front_come(stage: ActionStage, brought: Message) -> Option<u32>
    ensures { result ≡ front_come stage (meaning_of brought) }
{
    match stage {
        ActionStage::Plain { inst, plain } => match plain {
            PlainStage::AwaitFront if is_part(inst, brought) => Some(inst),
            _ => None,
        },
        _ => None,
    }
}

fn is_part(inst: u32, brought: Message) -> bool
    ensures { result ≡ is_part inst (meaning_of brought) }
{
    match brought {
        Message::Part(other) => other == inst,
        _ => false,
    }
}

// What an action begins with.
fn first_stage(action: u32, it: ShapeAction) -> ActionStage
    ensures left { (s : Shape) → stages_left s action result ≡ stages_of it.kind action it.inst (worker_of s it.inst) ++ actions_left s (action + 1) }
    ensures stage { (s : Shape) → action < length s.actions → it.inst < length s.insts → IsActionStage s action result }
{
    let inst = it.inst;
    match it.kind {
        ActionKind::Set | ActionKind::Patch => ActionStage::Tell,
        ActionKind::Save => ActionStage::Ask {
            inst,
            message: Message::Save { action, inst },
        },
        ActionKind::RestoreSafe => ActionStage::Ask {
            inst,
            message: Message::Restore { action, inst },
        },
        ActionKind::Restore => ActionStage::Plain {
            inst,
            plain: PlainStage::AskFront,
        },
    }
}
