ghost use Rattle.std.specs.Prelude.{[], IfOk, IfSome};
ghost use Rattle.order_base.specs.Limits.{KeepsLimits};
ghost use Rattle.order_base.specs.There.{IsThere};
ghost use Rattle.audio_order.specs.Tracked.{IsAudio, IsAudioStep, AudioStands, AudioNext, AudioGoes};

use crate::audio::AudioView;
use crate::audio_stage::{AudioStage, AudioStep};
use crate::fronts::{Place, all_here, note_front};
use lv_base::{Items, NoMemory};
use record_law::Shape;
use record_terms::Message;
use std::alloc::Global;
use step_law::Entry;

/// What audio is doing in a record, and where all fronts are.
#[derive(Drop)]
pub struct AudioTracker {
    pub stage: AudioStage,
    pub fronts: Items<Place>,
}

impl AudioTracker {
    /// Audio has done nothing yet.
    pub fn new(alloc: Global, shape: &Shape) -> Result<Self, NoMemory>
        ensures audio { IfOk result (IsAudio shape.now) }
        ensures stands { IfOk result (λ tracker. AudioStands shape.now tracker []) }
    {
        let fronts = all_here(alloc, shape.insts.len())?;
        let stage = AudioStage::Before { block: 0 };
        Ok(AudioTracker { stage, fronts })
    }

    /// What an entry of audio's is about, if audio may do it next. `None` leaves all as it was.
    pub fn step(&mut self, shape: &Shape, entry: Entry, brought: Message) -> Option<Message>
        requires limits { KeepsLimits shape.now }
        requires audio { IsAudio shape.now self.old }
        requires brought { IsThere shape.now brought }
        ensures audio { IsAudio shape.now self.new }
        ensures about { IfSome result (IsThere shape.now) }
        ensures goes { AudioGoes shape.now self.old self.new brought entry result }
    {
        let AudioStep { about, stage } = self.next(shape, entry, brought)?;
        note_front(&mut self.fronts, entry, about);
        self.stage = stage;
        Some(about)
    }

    fn next(&self, shape: &Shape, entry: Entry, brought: Message) -> Option<AudioStep>
        requires limits { KeepsLimits shape.now }
        requires audio { IsAudio shape.now self.now }
        requires brought { IsThere shape.now brought }
        ensures judged { AudioNext shape.now self.now brought entry result }
        ensures step { IfSome result (IsAudioStep shape.now) }
    {
        let view = AudioView {
            shape,
            fronts: &self.fronts,
            entry,
            brought,
        };
        view.next(self.stage)
    }
}
