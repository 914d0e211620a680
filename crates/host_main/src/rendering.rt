ghost use Rattle.std.specs.Prelude.{◌≡◌, ℕ, List, IfOk, IfErr, OnOk};
ghost use Rattle.session_script.specs.declared.session.Session.{Session};
ghost use Rattle.session_script.specs.Playable.{IsPlayable};
ghost use Rattle.replay_core.specs.Play.{meaning_of};
ghost use Rattle.lv_outside.specs.World.{LeavesFiles};
ghost use Rattle.host_main.specs.Render.{rendering_of, AnswersRender, Explains, IsDone, IsCaused, IsRead, IsUnread, IsRendered, IsUnrendered, LeavesSink};
ghost use Rattle.host_main.specs.Files.{AreApart};
ghost use Rattle.host_main.specs.GoesOn.{VaultGoesOn, SinkGoesOn};

use crate::files::Rendering;
use crate::reading::read_session;
use crate::refusal::{DONE, Refusal, Target};
use crate::say::say;
use audio_api::Codes;
use lv_base::{Bytes, NoMemory, Text};
use lv_outside::{Put, Sink, Vault};
use session_script::Session;
use std::alloc::Global;

/// Renders the session at a path on one thread: writes `NAME.rec`, `NAME.pcm` and `NAME.ttl` and puts the summary.
///
/// It answers 0 where the work was done and every write succeeded. Otherwise it puts the line of the refusal, and answers
/// its status: 2 the session isn't there, 3 a read failed, 4 a write failed, 7 the first line of the session that breaks
/// a rule of scripts, or the first that can't be played yet, 9 the session is longer than 16 MiB or passes a limit,
/// 14 no memory.
pub fn run_render<V: Vault, K: Sink, C: Codes>(
    alloc: Global,
    session: &Text,
    name: &Text,
    vault: &mut V,
    out: &mut K,
    codes: &C,
) -> u8
    ensures answers { AnswersRender (meaning_of C.make_of C.Front.activate_of C.Front.run_of C.Front.deactivate_of)
        session.now name.now (V.state vault.old) (V.state vault.new) (K.state out.old) (K.state out.new) result }
    ensures vault { VaultGoesOn (V.state vault.old) (V.state vault.new) }
    ensures sink { SinkGoesOn (K.state out.old) (K.state out.new) }
{
    answer(alloc, session, name, vault, out, codes)
}

// The answer, with its cause.
fn answer<V: Vault, K: Sink, C: Codes>(
    alloc: Global,
    session: &Text,
    name: &Text,
    vault: &mut V,
    out: &mut K,
    codes: &C,
) -> u8
    ensures explained { Explains (meaning_of C.make_of C.Front.activate_of C.Front.run_of C.Front.deactivate_of)
        session.now name.now (V.state vault.old) (V.state vault.new) (K.state out.old) (K.state out.new) result }
    ensures vault { VaultGoesOn (V.state vault.old) (V.state vault.new) }
    ensures sink { SinkGoesOn (K.state out.old) (K.state out.new) }
{
    match render_to(alloc, session, name, vault, out, codes) {
        Ok(()) => DONE,
        Err(refusal) => {
            say(refusal, session, name, out);
            refusal.status()
        }
    }
}

fn render_to<V: Vault, K: Sink, C: Codes>(
    alloc: Global,
    session: &Text,
    name: &Text,
    vault: &mut V,
    out: &mut K,
    codes: &C,
) -> Result<(), Refusal>
    ensures ok { OnOk result (IsDone (meaning_of C.make_of C.Front.activate_of C.Front.run_of C.Front.deactivate_of)
        session.now name.now (V.state vault.old) (V.state vault.new) (K.state out.old) (K.state out.new)) }
    ensures err { IfErr result (IsCaused (meaning_of C.make_of C.Front.activate_of C.Front.run_of C.Front.deactivate_of)
        session.now name.now (V.state vault.old) (V.state vault.new) (K.state out.old) (K.state out.new)) }
    ensures quiet { IfErr result (λ refusal. LeavesSink refusal (K.state out.old) (K.state out.new)) }
    ensures vault { VaultGoesOn (V.state vault.old) (V.state vault.new) }
    ensures sink { SinkGoesOn (K.state out.old) (K.state out.new) }
{
    let summary = render_files(alloc, session, name, vault, codes)?;
    match out.put(summary.as_slice()) {
        Put::Done => Ok(()),
        Put::Failed => Err(Refusal::WriteFailed(Target::Summary)),
    }
}

// Writes the three files, and gives the summary.
fn render_files<V: Vault, C: Codes>(
    alloc: Global,
    path: &Text,
    name: &Text,
    vault: &mut V,
    codes: &C,
) -> Result<Bytes, Refusal>
    ensures ok { IfOk result (λ summary. IsRendered
        (meaning_of C.make_of C.Front.activate_of C.Front.run_of C.Front.deactivate_of) path.now name.now
        (V.state vault.old) (V.state vault.new) summary) }
    ensures err { IfErr result (IsUnrendered
        (meaning_of C.make_of C.Front.activate_of C.Front.run_of C.Front.deactivate_of) path.now name.now
        (V.state vault.old) (V.state vault.new)) }
    ensures goes_on { VaultGoesOn (V.state vault.old) (V.state vault.new) }
{
    let rendering = rendering_at(alloc, path, name, vault, codes)?;
    match rendering.write(vault) {
        Ok(()) => Ok(rendering.into_summary()),
        Err(target) => Err(Refusal::WriteFailed(target)),
    }
}

// All that the run of the session at a path writes.
fn rendering_at<V: Vault, C: Codes>(
    alloc: Global,
    path: &Text,
    name: &Text,
    vault: &mut V,
    codes: &C,
) -> Result<Rendering, Refusal>
    ensures ok { IfOk result (λ made. (bytes : List ℕ) × (s : Session) × IsRead path.now (V.state vault.old) bytes s
        × (made ≡ rendering_of
        (meaning_of C.make_of C.Front.activate_of C.Front.run_of C.Front.deactivate_of) name.now s)) }
    ensures apart { IfOk result AreApart }
    ensures err { IfErr result (IsUnread path.now (V.state vault.old) (V.state vault.new)) }
    ensures files { LeavesFiles (V.state vault.old) (V.state vault.new) }
    ensures goes_on { VaultGoesOn (V.state vault.old) (V.state vault.new) }
{
    let session = read_session(alloc, path, vault)?;
    let rendering = rendering_for(alloc, name, &session, codes)?;
    Ok(rendering)
}

// All that the run of a session writes.
fn rendering_for<C: Codes>(
    alloc: Global,
    name: &Text,
    session: &Session,
    codes: &C,
) -> Result<Rendering, NoMemory>
    requires { IsPlayable session.now }
    ensures value { IfOk result (λ made. made ≡ rendering_of
        (meaning_of C.make_of C.Front.activate_of C.Front.run_of C.Front.deactivate_of) name.now session.now) }
    ensures apart { IfOk result AreApart }
{
    let outcome = replay_core::render(alloc, session, codes)?;
    Rendering::of(alloc, name, outcome)
}
