ghost use Rattle.std.specs.Prelude.{true, ◌≡◌, ◌<◌, ◌≤◌, ◌∷◌, ◌||◌, length, IfSome};
ghost use Rattle.step_law.specs.Entry.{send_of, full_of, begin_of};
ghost use Rattle.record_law.specs.Message.Message.{nothing};
ghost use Rattle.record_law.specs.Audio.{at_most};
ghost use Rattle.record_law.specs.Entries.{same_entry};
ghost use Rattle.record_law.specs.Shape.{works};
ghost use Rattle.record_law.specs.Task.Task.{one, look_messages};
ghost use Rattle.order_base.specs.There.{IsThere};
ghost use Rattle.audio_order.specs.Audio.{IsStage, IsTurn, audio_goes, blocks_left, fronts_left, runs_left, audio_left};
ghost use Rattle.audio_order.specs.AudioView.{Judges, AtStage, IsView, IsStep};

use crate::audio_stage::{AudioStage, AudioStep, RunStage, Turn};
use crate::fronts::{Place, first_present, first_wanted};
use lv_base::Items;
use order_base::{at_most, is_attempt};
use record_law::Shape;
use record_terms::{Message, is_same, replies, works};
use step_law::{Actor, Call, Entry, Ring};

/// What audio judges an entry by: the session, the fronts, and what a take brings.
#[derive(Drop)]
pub(crate) struct AudioView<'a> {
    pub(crate) shape: &'a Shape,
    pub(crate) fronts: &'a Items<Place>,
    pub(crate) entry: Entry,
    pub(crate) brought: Message,
}

impl AudioView<'_> {
    /// What the entry makes of a stage, if audio may do it next.
    pub(crate) fn next(&self, stage: AudioStage) -> Option<AudioStep>
        requires view { IsView self.now }
        requires stage { IsStage self.now.shape.now stage }
        ensures judged { AtStage self.now stage result }
        ensures step { IfSome result (IsStep self.now) }
    {
        match stage {
            AudioStage::Before { block } => self.before(block),
            AudioStage::Looking { block } => self.looking(block),
            AudioStage::Taking { block, more } => self.taking(block, more),
            AudioStage::Returning { block, inst } => self.returning(block, inst),
            AudioStage::Running { block, place } => self.running(block, place),
            AudioStage::Within { turn, stage } => self.in_turn(turn, stage),
            AudioStage::Stopped => None,
        }
    }

    fn before(&self, block: u32) -> Option<AudioStep>
        ensures judged { Judges self.now (blocks_left self.now.shape.now block) result }
        ensures step { IfSome result (IsStep self.now) }
    {
        if block < self.shape.blocks {
            self.expect(
                Entry::block(block),
                Message::Nothing,
                AudioStage::Looking { block },
            )
        } else {
            self.expect(
                Entry::stop(Actor::Audio),
                Message::Nothing,
                AudioStage::Stopped,
            )
        }
    }

    fn looking(&self, block: u32) -> Option<AudioStep>
        requires { block < self.now.shape.now.blocks }
        ensures judged { Judges self.now (look_messages ∷ fronts_left self.now.shape.now block 0) result }
        ensures step { IfSome result (IsStep self.now) }
    {
        let more = self.entry.b;
        let look = Entry::look(Actor::Audio, Ring::ControlToAudio, more);
        self.expect(look, Message::Nothing, AudioStage::Taking { block, more })
    }

    fn taking(&self, block: u32, more: u32) -> Option<AudioStep>
        requires view { IsView self.now }
        requires block { block < self.now.shape.now.blocks }
        ensures judged { AtStage self.now (AudioStage.Taking block more) result }
        ensures step { IfSome result (IsStep self.now) }
    {
        if more > 0 {
            let take = Entry::take(Actor::Audio, Ring::ControlToAudio);
            let stage = AudioStage::Taking {
                block,
                more: more - 1,
            };
            self.expect(take, self.brought, stage)
        } else {
            self.returning(block, 0)
        }
    }

    fn returning(&self, block: u32, from: usize) -> Option<AudioStep>
        requires view { IsView self.now }
        requires block { block < self.now.shape.now.blocks }
        requires from { from ≤ length self.now.shape.now.insts }
        ensures judged { Judges self.now (fronts_left self.now.shape.now block from) result }
        ensures step { IfSome result (IsStep self.now) }
    {
        let inst = from + first_wanted(&self.fronts.as_slice()[from..]);
        if inst < self.fronts.len() {
            let next = inst + 1;
            self.sent(inst as u32, AudioStage::Returning { block, inst: next })
        } else {
            self.running(block, 0)
        }
    }

    fn running(&self, block: u32, from: usize) -> Option<AudioStep>
        requires view { IsView self.now }
        requires block { block < self.now.shape.now.blocks }
        requires from { from ≤ length self.now.shape.now.plan }
        ensures judged { Judges self.now (runs_left self.now.shape.now block from) result }
        ensures step { IfSome result (IsStep self.now) }
    {
        let plan = self.shape.plan.as_slice();
        let place = from + first_present(self.fronts, &plan[from..]);
        if place < plan.len() {
            let inst = plan[place];
            let next = place + 1;
            self.begin(Turn { block, inst, next })
        } else {
            let next = AudioStage::Before { block: block + 1 };
            self.expect(Entry::done(block), Message::Nothing, next)
        }
    }

    fn begin(&self, turn: Turn) -> Option<AudioStep>
        requires { IsTurn self.now.shape.now turn }
        ensures judged { Judges self.now (one (begin_of Actor.Audio Call.Run turn.inst) nothing ∷ audio_left self.now.shape.now (AudioStage.Within turn (RunStage.Attempting (at_most (works self.now.shape.now turn.inst))))) result }
        ensures step { IfSome result (IsStep self.now) }
    {
        let most = at_most(works(self.shape, turn.inst));
        let begin = Entry::begin(Actor::Audio, Call::Run, turn.inst);
        self.within(begin, Message::Nothing, turn, RunStage::Attempting { most })
    }

    fn in_turn(&self, turn: Turn, stage: RunStage) -> Option<AudioStep>
        requires view { IsView self.now }
        requires turn { IsTurn self.now.shape.now turn }
        ensures judged { AtStage self.now (AudioStage.Within turn stage) result }
        ensures step { IfSome result (IsStep self.now) }
    {
        match stage {
            RunStage::Attempting { most } => self.attempting(turn, most),
            RunStage::Noticing { most } => self.noticing(turn, most),
            RunStage::Delivering { more } => self.delivering(turn, more),
            RunStage::Responding { more } => self.responding(turn, more),
            RunStage::Responded { more } => self.responded(turn, more),
            RunStage::Ending => self.ending(turn),
        }
    }

    fn attempting(&self, turn: Turn, most: u32) -> Option<AudioStep>
        requires view { IsView self.now }
        requires turn { IsTurn self.now.shape.now turn }
        ensures judged { AtStage self.now (AudioStage.Within turn (RunStage.Attempting most)) result }
        ensures step { IfSome result (IsStep self.now) }
    {
        if most > 0 && is_attempt(Actor::Audio, Ring::Jobs(turn.inst), self.entry) {
            let most = most - 1;
            self.go_on(Message::Body, turn, RunStage::Attempting { most })
        } else {
            let end = Entry::end(Actor::Audio, Call::Run, turn.inst);
            let most = at_most(replies(self.shape, turn.inst));
            self.within(end, Message::Nothing, turn, RunStage::Noticing { most })
        }
    }

    fn noticing(&self, turn: Turn, most: u32) -> Option<AudioStep>
        requires view { IsView self.now }
        requires turn { IsTurn self.now.shape.now turn }
        ensures judged { AtStage self.now (AudioStage.Within turn (RunStage.Noticing most)) result }
        ensures step { IfSome result (IsStep self.now) }
    {
        if most > 0 && is_attempt(Actor::Audio, Ring::AudioToControl, self.entry) {
            let most = most - 1;
            self.go_on(
                Message::Notice(turn.inst),
                turn,
                RunStage::Noticing { most },
            )
        } else if works(self.shape, turn.inst) {
            let more = self.entry.b;
            let look = Entry::look(Actor::Audio, Ring::Responses(turn.inst), more);
            self.within(look, Message::Nothing, turn, RunStage::Delivering { more })
        } else {
            self.running(turn.block, turn.next)
        }
    }

    fn delivering(&self, turn: Turn, more: u32) -> Option<AudioStep>
        requires view { IsView self.now }
        requires turn { IsTurn self.now.shape.now turn }
        ensures judged { AtStage self.now (AudioStage.Within turn (RunStage.Delivering more)) result }
        ensures step { IfSome result (IsStep self.now) }
    {
        if more > 0 {
            let take = Entry::take(Actor::Audio, Ring::Responses(turn.inst));
            let more = more - 1;
            self.within(take, self.brought, turn, RunStage::Responding { more })
        } else {
            let begin = Entry::begin(Actor::Audio, Call::EndRun, turn.inst);
            self.within(begin, Message::Nothing, turn, RunStage::Ending)
        }
    }

    fn responding(&self, turn: Turn, more: u32) -> Option<AudioStep>
        requires { IsTurn self.now.shape.now turn }
        ensures judged { AtStage self.now (AudioStage.Within turn (RunStage.Responding more)) result }
        ensures step { IfSome result (IsStep self.now) }
    {
        let begin = Entry::begin(Actor::Audio, Call::Response, turn.inst);
        self.within(begin, Message::Nothing, turn, RunStage::Responded { more })
    }

    fn responded(&self, turn: Turn, more: u32) -> Option<AudioStep>
        requires { IsTurn self.now.shape.now turn }
        ensures judged { AtStage self.now (AudioStage.Within turn (RunStage.Responded more)) result }
        ensures step { IfSome result (IsStep self.now) }
    {
        let end = Entry::end(Actor::Audio, Call::Response, turn.inst);
        self.within(end, Message::Nothing, turn, RunStage::Delivering { more })
    }

    fn ending(&self, turn: Turn) -> Option<AudioStep>
        requires { IsTurn self.now.shape.now turn }
        ensures judged { AtStage self.now (AudioStage.Within turn RunStage.Ending) result }
        ensures step { IfSome result (IsStep self.now) }
    {
        let end = Entry::end(Actor::Audio, Call::EndRun, turn.inst);
        let stage = AudioStage::Running {
            block: turn.block,
            place: turn.next,
        };
        self.expect(end, Message::Nothing, stage)
    }

    // Audio goes on within a turn, if the entry is the one that is wanted.
    fn within(
        &self,
        wanted: Entry,
        about: Message,
        turn: Turn,
        stage: RunStage,
    ) -> Option<AudioStep>
        requires about { IsThere self.now.shape.now about }
        requires turn { IsTurn self.now.shape.now turn }
        ensures value { result ≡ audio_goes (same_entry wanted self.now.entry) about (AudioStage.Within turn stage) }
        ensures step { IfSome result (IsStep self.now) }
    {
        self.expect(wanted, about, AudioStage::Within { turn, stage })
    }

    // Audio goes on within a turn.
    fn go_on(&self, about: Message, turn: Turn, stage: RunStage) -> Option<AudioStep>
        requires about { IsThere self.now.shape.now about }
        requires turn { IsTurn self.now.shape.now turn }
        ensures value { result ≡ audio_goes true about (AudioStage.Within turn stage) }
        ensures step { IfSome result (IsStep self.now) }
    {
        let stage = AudioStage::Within { turn, stage };
        Some(AudioStep { about, stage })
    }

    // Audio sends control a front, or finds the ring full.
    fn sent(&self, inst: u32, stage: AudioStage) -> Option<AudioStep>
        requires inst { inst < length self.now.shape.now.insts }
        requires stage { IsStage self.now.shape.now stage }
        ensures value { result ≡ audio_goes (same_entry (send_of Actor.Audio Ring.AudioToControl) self.now.entry || same_entry (full_of Actor.Audio Ring.AudioToControl) self.now.entry) (Message.Part inst) stage }
        ensures step { IfSome result (IsStep self.now) }
    {
        let send = Entry::send(Actor::Audio, Ring::AudioToControl);
        let full = Entry::full(Actor::Audio, Ring::AudioToControl);
        if is_same(send, self.entry) || is_same(full, self.entry) {
            let about = Message::Part(inst);
            Some(AudioStep { about, stage })
        } else {
            None
        }
    }

    // Audio goes on to a stage, if the entry is the one that is wanted.
    fn expect(&self, wanted: Entry, about: Message, stage: AudioStage) -> Option<AudioStep>
        requires about { IsThere self.now.shape.now about }
        requires stage { IsStage self.now.shape.now stage }
        ensures value { result ≡ audio_goes (same_entry wanted self.now.entry) about stage }
        ensures step { IfSome result (IsStep self.now) }
    {
        if is_same(wanted, self.entry) {
            Some(AudioStep { about, stage })
        } else {
            None
        }
    }
}
