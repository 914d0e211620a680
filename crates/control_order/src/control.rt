ghost use Rattle.std.specs.Prelude.{true, false, ◌≡◌, ◌<◌, ◌+◌, ◌++◌, length, IfSome};
ghost use Rattle.record_law.specs.Entries.{same_entry};
ghost use Rattle.control_order.specs.Control.{IsControlStage, call_of, calls_left, after_round, control_goes, control_left};
ghost use Rattle.order_base.specs.Limits.{KeepsLimits};
ghost use Rattle.order_base.specs.There.{IsThere};
ghost use Rattle.control_order.specs.ControlView.{AtStage, IsView, IsStep};

use crate::control_stage::{ActionStage, ControlStage, ControlStep, Round};
use record_law::Shape;
use record_terms::{Message, is_same};
use step_law::{Actor, Call, Entry};

/// What control judges an entry by: the session, how far it has seen audio to be, and what a take brings.
#[derive(Drop)]
pub(crate) struct ControlView<'a> {
    pub(crate) shape: &'a Shape,
    pub(crate) progress: Option<u32>,
    pub(crate) entry: Entry,
    pub(crate) brought: Message,
}

impl ControlView<'_> {
    /// What the entry makes of a stage, if control may do it next.
    pub(crate) fn next(&self, stage: ControlStage) -> Option<ControlStep>
        requires view { IsView self.now }
        requires stage { IsControlStage self.now.shape.now stage }
        ensures judged { AtStage self.now stage result }
        ensures step { IfSome result (IsStep self.now) }
    {
        match stage {
            ControlStage::Calling { round, inst, begun } => self.calling(round, inst, begun),
            ControlStage::Acting { action, stage } => self.acting(action, stage),
            ControlStage::Restoring { action, inst } => self.restoring(action, inst),
            ControlStage::Closing { unfinished, stage } => self.closing(unfinished, stage),
            ControlStage::Finishing { action, stage } => self.finishing(action, stage),
            ControlStage::Ending => self.ending(),
            ControlStage::Over => None,
        }
    }

    fn calling(&self, round: Round, inst: u32, begun: bool) -> Option<ControlStep>
        requires view { IsView self.now }
        requires inst { inst < length self.now.shape.now.insts }
        ensures judged { AtStage self.now (ControlStage.Calling round inst begun) result }
        ensures step { IfSome result (IsStep self.now) }
    {
        if begun {
            self.end_call(round, inst)
        } else {
            self.begin_call(round, inst)
        }
    }

    /// The call of a round on an instance begins.
    pub(crate) fn begin_call(&self, round: Round, inst: u32) -> Option<ControlStep>
        requires { inst < length self.now.shape.now.insts }
        ensures judged { AtStage self.now (ControlStage.Calling round inst false) result }
        ensures step { IfSome result (IsStep self.now) }
    {
        let begin = Entry::begin(Actor::Control, call_of(round), inst);
        let begun = true;
        self.expect(
            begin,
            Message::Nothing,
            ControlStage::Calling { round, inst, begun },
        )
    }

    fn end_call(&self, round: Round, inst: u32) -> Option<ControlStep>
        requires view { IsView self.now }
        requires inst { inst < length self.now.shape.now.insts }
        ensures judged { AtStage self.now (ControlStage.Calling round inst true) result }
        ensures step { IfSome result (IsStep self.now) }
    {
        let end = Entry::end(Actor::Control, call_of(round), inst);
        self.expect(end, Message::Nothing, after_call(self.shape, round, inst))
    }

    /// The record ends.
    pub(crate) fn ending(&self) -> Option<ControlStep>
        ensures judged { AtStage self.now ControlStage.Ending result }
        ensures step { IfSome result (IsStep self.now) }
    {
        self.expect(Entry::last(), Message::Nothing, ControlStage::Over)
    }

    /// Control goes on to a stage, if the entry is the one that is wanted.
    pub(crate) fn expect(
        &self,
        wanted: Entry,
        about: Message,
        stage: ControlStage,
    ) -> Option<ControlStep>
        requires about { IsThere self.now.shape.now about }
        requires stage { IsControlStage self.now.shape.now stage }
        ensures value { result ≡ control_goes (same_entry wanted self.now.entry) about stage }
        ensures step { IfSome result (IsStep self.now) }
    {
        if is_same(wanted, self.entry) {
            Some(ControlStep { about, stage })
        } else {
            None
        }
    }
}

fn call_of(round: Round) -> Call
    ensures { result ≡ call_of round }
{
    match round {
        Round::Make => Call::Make,
        Round::Activate => Call::Activate,
        Round::Deactivate => Call::Deactivate,
        Round::Cleanup => Call::Cleanup,
    }
}

// What control does after the call of a round on an instance.
fn after_call(shape: &Shape, round: Round, inst: u32) -> ControlStage
    requires limits { KeepsLimits shape.now }
    requires inst { inst < length shape.now.insts }
    ensures left { control_left shape.now result ≡ calls_left shape.now (call_of round) (inst + 1) ++ after_round shape.now round }
    ensures stage { IsControlStage shape.now result }
{
    let next = inst + 1;
    if (next as usize) < shape.insts.len() {
        ControlStage::Calling {
            round,
            inst: next,
            begun: false,
        }
    } else {
        after_round(round)
    }
}

// What control does after a round, where there are instances.
fn after_round(round: Round) -> ControlStage
    ensures left { (s : Shape) → control_left s result ≡ after_round s round }
    ensures stage { (s : Shape) → 0 < length s.insts → IsControlStage s result }
{
    match round {
        Round::Make => ControlStage::Calling {
            round: Round::Activate,
            inst: 0,
            begun: false,
        },
        Round::Activate => ControlStage::Acting {
            action: 0,
            stage: ActionStage::Due,
        },
        Round::Deactivate => ControlStage::Calling {
            round: Round::Cleanup,
            inst: 0,
            begun: false,
        },
        Round::Cleanup => ControlStage::Ending,
    }
}
