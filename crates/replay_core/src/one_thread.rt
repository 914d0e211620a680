ghost use Rattle.std.specs.Prelude.{◌≡◌, ◌<◌, ◌≤◌, ◌^◌, ◌*◌, ◌++◌, [], ◌∷◌, length, IfOk, OnOk};
ghost use Rattle.step_law.specs.declared.actor.Actor.TheVariants.{Control};
ghost use Rattle.step_law.specs.declared.call.Call.TheVariants.{Cleanup};
ghost use Rattle.step_record.specs.Entry.{last};
ghost use Rattle.session_script.specs.Playable.{IsPlayable};
ghost use Rattle.replay_core.specs.Each.{each};
ghost use Rattle.replay_core.specs.PlainRecord.{called, before_cleanup};
ghost use Rattle.replay_core.specs.Play.{meaning_of};
ghost use Rattle.replay_core.specs.Run.{IsRunning, Plays};
ghost use Rattle.replay_core.specs.Summary.{summary_of};
ghost use Rattle.replay_core.specs.Outcome.{IsOutcome};

use crate::Outcome;
use crate::phases::clean_up;
use crate::run::Run;
use crate::summary::summary;
use audio_api::Codes;
use lv_base::NoMemory;
use session_script::Session;
use std::alloc::Global;

/// Runs a session on one thread, and gives the record of what was done, what is heard in the play of that record, and
/// what the record counts.
pub fn render<C: Codes>(alloc: Global, session: &Session, codes: &C) -> Result<Outcome, NoMemory>
    requires { IsPlayable session.now }
    ensures { IfOk result
        (IsOutcome (meaning_of C.make_of C.Front.activate_of C.Front.run_of C.Front.deactivate_of) session.now) }
{
    let mut run = Run::<C>::new(alloc, session)?;
    run.play_whole(alloc, session, codes)?;
    ended(alloc, session, run)
}

impl<C: Codes> Run<C> {
    /// All that is done before the fronts are let go.
    fn play_whole(&mut self, alloc: Global, session: &Session, codes: &C) -> Result<(), NoMemory>
        requires playable { IsPlayable session.now }
        requires running { IsRunning C.Front.uri_of session.now self.old }
        requires fresh { self.old.fronts.items ≡ [] }
        ensures plays { OnOk result
            (Plays (meaning_of C.make_of C.Front.activate_of C.Front.run_of C.Front.deactivate_of)
            C.Front.uri_of session.now self.old self.new (before_cleanup session.now)) }
        ensures made { OnOk result (length self.new.fronts.items ≡ length session.now.insts) }
    {
        self.open(alloc, session, codes)?;
        self.play_all(session)?;
        self.stop(session)?;
        self.deactivate_all(session)
    }
}

/// Lets the fronts of a run go, and counts what its record then has.
fn ended<C: Codes>(alloc: Global, session: &Session, run: Run<C>) -> Result<Outcome, NoMemory>
    requires few { length run.fronts.items < 2 ^ 32 }
    requires insts { length session.now.insts ≤ 32 }
    requires size { session.now.block * session.now.blocks < 2 ^ 32 }
    ensures steps { IfOk result (λ outcome. outcome.steps
        ≡ run.steps ++ (each (length run.fronts.items) (called Control Cleanup) ++ last ∷ [])) }
    ensures pcm { IfOk result (λ outcome. outcome.pcm ≡ run.pcm) }
    ensures summary { IfOk result (λ outcome. outcome.summary ≡ summary_of session.now outcome.steps) }
{
    let Run {
        mut steps,
        fronts,
        desk,
        pcm,
    } = run;
    drop(desk);
    clean_up(&mut steps, fronts)?;
    let summary = summary(alloc, session, &steps)?;
    Ok(Outcome {
        steps,
        pcm,
        summary,
    })
}
