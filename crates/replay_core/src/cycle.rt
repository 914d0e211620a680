ghost use Rattle.std.specs.Prelude.{◌≡◌, ◌<◌, ◌++◌, [], ◌∷◌, length, OnOk};
ghost use Rattle.step_law.specs.declared.actor.Actor.TheVariants.{Audio};
ghost use Rattle.step_law.specs.declared.call.Call.TheVariants.{Run as RunCall};
ghost use Rattle.step_law.specs.declared.ring.Ring.TheVariants.{ControlToAudio};
ghost use Rattle.step_record.specs.Entry.{block_of, look_of, done_of};
ghost use Rattle.session_script.specs.Playable.{IsPlayable};
ghost use Rattle.replay_core.specs.Each.{each};
ghost use Rattle.replay_core.specs.PlainRecord.{called, cycle};
ghost use Rattle.replay_core.specs.Play.{meaning_of, silent_signals};
ghost use Rattle.replay_core.specs.Run.{IsRunning, Plays};

use crate::pcm::push_block;
use crate::run::Run;
use audio_api::Codes;
use lv_base::NoMemory;
use session_script::Session;
use step_record::{Actor, Entry, Ring};

impl<C: Codes> Run<C> {
    /// Plays a block: audio runs each instance, in order, and what is heard is kept.
    pub fn play(&mut self, session: &Session, block: u32) -> Result<(), NoMemory>
        requires playable { IsPlayable session.now }
        requires running { IsRunning C.Front.uri_of session.now self.old }
        requires made { length self.old.fronts.items ≡ length session.now.insts }
        ensures plays { OnOk result
            (Plays (meaning_of C.make_of C.Front.activate_of C.Front.run_of C.Front.deactivate_of)
            C.Front.uri_of session.now self.old self.new (cycle (length session.now.insts) block)) }
        ensures made { OnOk result (length self.new.fronts.items ≡ length session.now.insts) }
    {
        self.begin_block(session, block)?;
        self.run_all(session)?;
        self.end_block(session, block)
    }

    fn begin_block(&mut self, session: &Session, block: u32) -> Result<(), NoMemory>
        requires playable { IsPlayable session.now }
        requires running { IsRunning C.Front.uri_of session.now self.old }
        requires made { length self.old.fronts.items ≡ length session.now.insts }
        ensures plays { OnOk result
            (Plays (meaning_of C.make_of C.Front.activate_of C.Front.run_of C.Front.deactivate_of)
            C.Front.uri_of session.now self.old self.new (block_of block ∷ look_of Audio ControlToAudio 0 ∷ [])) }
        ensures silent { OnOk result (self.new.desk.outs.blocks ≡ silent_signals session.now) }
        ensures made { OnOk result (length self.new.fronts.items ≡ length session.now.insts) }
    {
        self.steps.push(Entry::block(block))?;
        self.desk.silence(session);
        self.steps
            .push(Entry::look(Actor::Audio, Ring::ControlToAudio, 0))?;
        Ok(())
    }

    fn run_all(&mut self, session: &Session) -> Result<(), NoMemory>
        requires playable { IsPlayable session.now }
        requires running { IsRunning C.Front.uri_of session.now self.old }
        requires made { length self.old.fronts.items ≡ length session.now.insts }
        requires silent { self.old.desk.outs.blocks ≡ silent_signals session.now }
        ensures plays { OnOk result
            (Plays (meaning_of C.make_of C.Front.activate_of C.Front.run_of C.Front.deactivate_of)
            C.Front.uri_of session.now self.old self.new (each (length session.now.insts) (called Audio RunCall))) }
        ensures made { OnOk result (length self.new.fronts.items ≡ length session.now.insts) }
    {
        for inst in 0..session.insts.len() as u32 {
            self.run(session, inst)?;
        }
        Ok(())
    }

    fn end_block(&mut self, session: &Session, block: u32) -> Result<(), NoMemory>
        requires playable { IsPlayable session.now }
        requires running { IsRunning C.Front.uri_of session.now self.old }
        requires made { length self.old.fronts.items ≡ length session.now.insts }
        ensures plays { OnOk result
            (Plays (meaning_of C.make_of C.Front.activate_of C.Front.run_of C.Front.deactivate_of)
            C.Front.uri_of session.now self.old self.new (done_of block ∷ [])) }
        ensures made { OnOk result (length self.new.fronts.items ≡ length session.now.insts) }
    {
        push_block(&mut self.pcm, session, self.desk.outs())?;
        self.steps.push(Entry::done(block))?;
        Ok(())
    }
}
