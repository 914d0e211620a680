ghost use Rattle.std.specs.Prelude.{◌≡◌, ◌<◌, ◌+◌, ◌^◌, ◌++◌, [], ◌∷◌, length, IfOk, OnOk};
ghost use Rattle.step_law.specs.declared.actor.Actor.TheVariants.{Control};
ghost use Rattle.step_law.specs.declared.call.Call.TheVariants.{Make, Activate, Deactivate, Cleanup};
ghost use Rattle.session_script.specs.Playable.{IsPlayable};
ghost use Rattle.replay_core.specs.Each.{each};
ghost use Rattle.replay_core.specs.PlainRecord.{called, opening, cycle, stopping, closing};
ghost use Rattle.replay_core.specs.Play.{meaning_of, played_from};
ghost use Rattle.step_record.specs.Entry.{last};
ghost use Rattle.replay_core.specs.Run.{moment_of, IsRunning, Plays};

use crate::run::Run;
use audio_api::{Codes, Front};
use lv_base::{Bytes, NoMemory};
use session_script::Session;
use std::alloc::Global;
use step_record::{Actor, Call, Entry, Record, Ring};

impl<C: Codes> Run<C> {
    /// Opens the run: control makes each instance, and then activates each.
    pub fn open(&mut self, alloc: Global, session: &Session, codes: &C) -> Result<(), NoMemory>
        requires playable { IsPlayable session.now }
        requires running { IsRunning C.Front.uri_of session.now self.old }
        requires fresh { self.old.fronts.items ≡ [] }
        ensures plays { OnOk result
            (Plays (meaning_of C.make_of C.Front.activate_of C.Front.run_of C.Front.deactivate_of)
            C.Front.uri_of session.now self.old self.new (opening (length session.now.insts))) }
        ensures made { OnOk result (length self.new.fronts.items ≡ length session.now.insts) }
    {
        self.make_all(alloc, session, codes)?;
        self.activate_all(session)
    }

    fn make_all(&mut self, alloc: Global, session: &Session, codes: &C) -> Result<(), NoMemory>
        requires playable { IsPlayable session.now }
        requires running { IsRunning C.Front.uri_of session.now self.old }
        requires fresh { self.old.fronts.items ≡ [] }
        ensures plays { OnOk result
            (Plays (meaning_of C.make_of C.Front.activate_of C.Front.run_of C.Front.deactivate_of)
            C.Front.uri_of session.now self.old self.new (each (length session.now.insts) (called Control Make))) }
        ensures made { OnOk result (length self.new.fronts.items ≡ length session.now.insts) }
    {
        for inst in 0..session.insts.len() as u32 {
            self.make(alloc, session, codes, inst)?;
        }
        Ok(())
    }

    fn activate_all(&mut self, session: &Session) -> Result<(), NoMemory>
        requires playable { IsPlayable session.now }
        requires running { IsRunning C.Front.uri_of session.now self.old }
        requires made { length self.old.fronts.items ≡ length session.now.insts }
        ensures plays { OnOk result
            (Plays (meaning_of C.make_of C.Front.activate_of C.Front.run_of C.Front.deactivate_of)
            C.Front.uri_of session.now self.old self.new (each (length session.now.insts) (called Control Activate))) }
        ensures made { OnOk result (length self.new.fronts.items ≡ length session.now.insts) }
    {
        for inst in 0..session.insts.len() as u32 {
            self.activate(session, inst)?;
        }
        Ok(())
    }

    /// Plays every block of the session.
    pub fn play_all(&mut self, session: &Session) -> Result<(), NoMemory>
        requires playable { IsPlayable session.now }
        requires running { IsRunning C.Front.uri_of session.now self.old }
        requires made { length self.old.fronts.items ≡ length session.now.insts }
        ensures plays { OnOk result
            (Plays (meaning_of C.make_of C.Front.activate_of C.Front.run_of C.Front.deactivate_of)
            C.Front.uri_of session.now self.old self.new (each session.now.blocks (cycle (length session.now.insts)))) }
        ensures made { OnOk result (length self.new.fronts.items ≡ length session.now.insts) }
    {
        for block in 0..session.blocks {
            self.play(session, block)?;
        }
        Ok(())
    }

    /// Audio stops, and then the one worker; control has seen both.
    pub fn stop(&mut self, session: &Session) -> Result<(), NoMemory>
        requires playable { IsPlayable session.now }
        requires running { IsRunning C.Front.uri_of session.now self.old }
        requires made { length self.old.fronts.items ≡ length session.now.insts }
        ensures plays { OnOk result
            (Plays (meaning_of C.make_of C.Front.activate_of C.Front.run_of C.Front.deactivate_of)
            C.Front.uri_of session.now self.old self.new (stopping session.now.blocks)) }
        ensures made { OnOk result (length self.new.fronts.items ≡ length session.now.insts) }
    {
        let worker = Actor::Worker(1);
        let ring = Ring::ControlToWorker(1);
        self.steps.push(Entry::stop(Actor::Audio))?;
        self.steps.push(Entry::beat(session.blocks + 1))?;
        self.steps.push(Entry::send(Actor::Control, ring))?;
        self.steps.push(Entry::take(worker, ring))?;
        self.steps.push(Entry::stop(worker))?;
        self.steps.push(Entry::join())?;
        Ok(())
    }

    /// Control deactivates each instance.
    pub fn deactivate_all(&mut self, session: &Session) -> Result<(), NoMemory>
        requires playable { IsPlayable session.now }
        requires running { IsRunning C.Front.uri_of session.now self.old }
        requires made { length self.old.fronts.items ≡ length session.now.insts }
        ensures plays { OnOk result
            (Plays (meaning_of C.make_of C.Front.activate_of C.Front.run_of C.Front.deactivate_of)
            C.Front.uri_of session.now self.old self.new (each (length session.now.insts) (called Control Deactivate))) }
        ensures made { OnOk result (length self.new.fronts.items ≡ length session.now.insts) }
    {
        for inst in 0..session.insts.len() as u32 {
            self.deactivate(session, inst)?;
        }
        Ok(())
    }
}

/// Control lets each front go, and the record ends.
pub(crate) fn clean_up<F: Front>(steps: &mut Record, fronts: Vec<F>) -> Result<(), NoMemory>
    requires { length fronts.items < 2 ^ 32 }
    ensures { OnOk result (steps.new ≡ steps.old ++ (each (length fronts.items) (called Control Cleanup) ++ last ∷ [])) }
{
    let mut inst = 0;
    for front in fronts {
        steps.push(Entry::begin(Actor::Control, Call::Cleanup, inst))?;
        drop(front);
        steps.push(Entry::end(Actor::Control, Call::Cleanup, inst))?;
        inst += 1;
    }
    steps.push(Entry::last())?;
    Ok(())
}
