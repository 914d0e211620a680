ghost use Rattle.std.specs.Prelude.{◌≡◌, ◌↔◌, [], IsTrue, IfSome};
ghost use Rattle.step_law.specs.declared.actor.Actor.TheVariants as actor;
ghost use Rattle.record_law.specs.declared.shape.Shape.{Shape};
ghost use Rattle.record_law.specs.Message.{History};
ghost use Rattle.record_law.specs.Protocol.{left_after};
ghost use Rattle.order_base.specs.Limits.{KeepsLimits};
ghost use Rattle.order_base.specs.There.{IsThere};
ghost use Rattle.control_order.specs.TrackedControl.{IsControl, IsControlStep, ControlStands, ControlNext, ControlGoes};

use crate::control::ControlView;
use crate::control_stage::{ActionStage, ControlStage, ControlStep, Round};
use crate::progress::progress_after;
use record_law::Shape;
use record_terms::Message;
use step_law::Entry;

/// What control is doing in a record, and how far it has seen audio to be.
#[derive(Drop)]
pub struct ControlTracker {
    pub stage: ControlStage,
    pub progress: Option<u32>,
}

impl ControlTracker {
    /// Control has done nothing yet.
    pub fn new(shape: &Shape) -> Self
        ensures control { IsControl shape.now result }
        ensures stands { ControlStands shape.now result [] }
    {
        let stage = if shape.insts.is_empty() {
            let stage = ActionStage::Due;
            ControlStage::Acting { action: 0, stage }
        } else {
            let round = Round::Make;
            let begun = false;
            ControlStage::Calling {
                round,
                inst: 0,
                begun,
            }
        };
        ControlTracker {
            stage,
            progress: None,
        }
    }

    /// What an entry of control's is about, if control may do it next. `None` leaves all as it was.
    pub fn step(&mut self, shape: &Shape, entry: Entry, brought: Message) -> Option<Message>
        requires limits { KeepsLimits shape.now }
        requires control { IsControl shape.now self.old }
        requires brought { IsThere shape.now brought }
        ensures control { IsControl shape.now self.new }
        ensures about { IfSome result (IsThere shape.now) }
        ensures goes { ControlGoes shape.now self.old self.new brought entry result }
    {
        let ControlStep { about, stage } = self.next(shape, entry, brought)?;
        self.progress = progress_after(self.progress, entry);
        self.stage = stage;
        Some(about)
    }

    /// Whether control has ended the record, and so has nothing left to do.
    pub fn is_over(&self) -> bool
        ensures over { IsTrue result ↔ (self.now.stage ≡ ControlStage.Over) }
        ensures none_left { IsTrue result → (s : Shape) (h : History) → ControlStands s self.now h → left_after s actor.Control h ≡ [] }
    {
        matches!(self.stage, ControlStage::Over)
    }

    fn next(&self, shape: &Shape, entry: Entry, brought: Message) -> Option<ControlStep>
        requires limits { KeepsLimits shape.now }
        requires control { IsControl shape.now self.now }
        requires brought { IsThere shape.now brought }
        ensures judged { ControlNext shape.now self.now brought entry result }
        ensures step { IfSome result (IsControlStep shape.now) }
    {
        let view = ControlView {
            shape,
            progress: self.progress,
            entry,
            brought,
        };
        view.next(self.stage)
    }
}
