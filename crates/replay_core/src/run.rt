ghost use Rattle.std.specs.Prelude.{◌≡◌, ◌<◌, ◌+◌, [], length, drop, IfOk, OnOk};
ghost use Rattle.step_law.specs.declared.actor.Actor.TheVariants.{Audio, Control};
ghost use Rattle.step_law.specs.declared.call.Call.TheVariants.{Run as RunCall, Make, Activate, Deactivate};
ghost use Rattle.session_script.specs.Playable.{IsPlayable};
ghost use Rattle.audio_api.specs.Outputs.{block_at};
ghost use Rattle.audio_api.specs.Sound.{silence};
ghost use Rattle.replay_core.specs.PlainRecord.{called};
ghost use Rattle.replay_core.specs.Play.{meaning_of, start};
ghost use Rattle.replay_core.specs.Run.{moment_of, IsRunning, Plays};

use crate::calls::{activate, deactivate};
use crate::desk::Desk;
use audio_api::Codes;
use lv_base::{Bytes, NoMemory};
use session_script::Session;
use std::alloc::Global;
use step_record::{Actor, Call, Entry, Record};

/// A run under way: what was done so far, and what it left.
#[derive(Drop)]
pub(crate) struct Run<C: Codes> {
    pub steps: Record,
    pub fronts: Vec<C::Front>,
    pub desk: Desk,
    pub pcm: Bytes,
}

impl<C: Codes> Run<C> {
    /// Nothing was done yet.
    pub fn new(alloc: Global, session: &Session) -> Result<Self, NoMemory>
        requires { IsPlayable session.now }
        ensures steps { IfOk result (λ run. run.steps ≡ []) }
        ensures moment { IfOk result (λ run. moment_of run ≡ start session.now) }
        ensures running { IfOk result (IsRunning C.Front.uri_of session.now) }
    {
        let desk = Desk::new(alloc, session)?;
        Ok(Run {
            steps: Record::new(alloc),
            fronts: Vec::new(alloc),
            desk,
            pcm: Bytes::new(alloc),
        })
    }

    /// Makes the front of the next instance.
    pub fn make(
        &mut self,
        alloc: Global,
        session: &Session,
        codes: &C,
        inst: u32,
    ) -> Result<(), NoMemory>
        requires playable { IsPlayable session.now }
        requires running { IsRunning C.Front.uri_of session.now self.old }
        requires there { inst < length session.now.insts }
        requires next { length self.old.fronts.items ≡ inst }
        ensures plays { OnOk result
            (Plays (meaning_of C.make_of C.Front.activate_of C.Front.run_of C.Front.deactivate_of)
            C.Front.uri_of session.now self.old self.new (called Control Make inst)) }
        ensures one_more { OnOk result (length self.new.fronts.items ≡ inst + 1) }
    {
        self.steps
            .push(Entry::begin(Actor::Control, Call::Make, inst))?;
        let front = codes.make(alloc, &session.insts.as_slice()[inst as usize].uri)?;
        self.fronts.push(front)?;
        self.steps
            .push(Entry::end(Actor::Control, Call::Make, inst))?;
        Ok(())
    }

    /// Activates an instance.
    pub fn activate(&mut self, session: &Session, inst: u32) -> Result<(), NoMemory>
        requires running { IsRunning C.Front.uri_of session.now self.old }
        requires there { inst < length self.old.fronts.items }
        ensures plays { OnOk result
            (Plays (meaning_of C.make_of C.Front.activate_of C.Front.run_of C.Front.deactivate_of)
            C.Front.uri_of session.now self.old self.new (called Control Activate inst)) }
        ensures as_many { OnOk result (length self.new.fronts.items ≡ length self.old.fronts.items) }
    {
        self.steps
            .push(Entry::begin(Actor::Control, Call::Activate, inst))?;
        activate(&mut self.fronts[inst as usize]);
        self.steps
            .push(Entry::end(Actor::Control, Call::Activate, inst))?;
        Ok(())
    }

    /// Runs an instance on the signals of the block so far.
    pub fn run(&mut self, session: &Session, inst: u32) -> Result<(), NoMemory>
        requires playable { IsPlayable session.now }
        requires running { IsRunning C.Front.uri_of session.now self.old }
        requires there { inst < length session.now.insts }
        requires made { length self.old.fronts.items ≡ length session.now.insts }
        requires silent { block_at self.old.desk.outs inst ≡ silence session.now.block }
        ensures plays { OnOk result
            (Plays (meaning_of C.make_of C.Front.activate_of C.Front.run_of C.Front.deactivate_of)
            C.Front.uri_of session.now self.old self.new (called Audio RunCall inst)) }
        ensures as_many { OnOk result (length self.new.fronts.items ≡ length self.old.fronts.items) }
        ensures others { OnOk result
            (drop (inst + 1) self.new.desk.outs.blocks ≡ drop (inst + 1) self.old.desk.outs.blocks) }
    {
        self.steps
            .push(Entry::begin(Actor::Audio, Call::Run, inst))?;
        let front = &mut self.fronts[inst as usize];
        self.desk.run(session, inst, front);
        self.steps.push(Entry::end(Actor::Audio, Call::Run, inst))?;
        Ok(())
    }

    /// Deactivates an instance.
    pub fn deactivate(&mut self, session: &Session, inst: u32) -> Result<(), NoMemory>
        requires running { IsRunning C.Front.uri_of session.now self.old }
        requires there { inst < length self.old.fronts.items }
        ensures plays { OnOk result
            (Plays (meaning_of C.make_of C.Front.activate_of C.Front.run_of C.Front.deactivate_of)
            C.Front.uri_of session.now self.old self.new (called Control Deactivate inst)) }
        ensures as_many { OnOk result (length self.new.fronts.items ≡ length self.old.fronts.items) }
    {
        self.steps
            .push(Entry::begin(Actor::Control, Call::Deactivate, inst))?;
        deactivate(&mut self.fronts[inst as usize]);
        self.steps
            .push(Entry::end(Actor::Control, Call::Deactivate, inst))?;
        Ok(())
    }
}
