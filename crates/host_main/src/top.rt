ghost use Rattle.std.specs.Prelude.{◌≡◌, ℕ, List};
ghost use Rattle.host_main.specs.Status.{usage_line, no_memory_line};
ghost use Rattle.host_main.specs.GoesOn.{VaultGoesOn, SinkGoesOn};
ghost use Rattle.host_main.specs.Words.{IsCheck, IsRender, IsOfNoForm};
ghost use Rattle.replay_core.specs.Play.{meaning_of};
ghost use Rattle.lv_outside.specs.World.{LeavesFiles, IsSaid};
ghost use Rattle.host_main.specs.Check.{folder_of, AnswersCheck};
ghost use Rattle.host_main.specs.Render.{AnswersRender};

use crate::checking::run_check;
use crate::command::{Command, command_of};
use crate::refusal::Refusal;
use crate::rendering::run_render;
use crate::say::{say_no_memory, say_usage};
use audio_api::Codes;
use lv_base::Text;
use lv_outside::{Gate, Sink, Vault};
use std::alloc::Global;

/// Does what the words say, and answers the status that the program ends with.
///
/// The words are `check BUNDLE` or `render SESSION OUT`, so far: see [`run_check`] and
/// [`run_render`]. Words of any other form are answered by 1, with the line that lists the
/// commands. The gate is passed by running threads alone, and no command starts any yet.
pub fn host_main<V: Vault, K: Sink, C: Codes + Sync, G: Gate + Sync>(
    alloc: Global,
    words: &[Text],
    vault: &mut V,
    out: &mut K,
    codes: &C,
    gate: &G,
) -> u8
    ensures check { (bundle : List ℕ) → IsCheck words.now bundle → AnswersCheck (folder_of bundle) (V.state vault.old)
        (V.state vault.new) (K.state out.old) (K.state out.new) result }
    ensures render { (session name : List ℕ) → IsRender words.now session name → AnswersRender
        (meaning_of C.make_of C.Front.activate_of C.Front.run_of C.Front.deactivate_of) session name (V.state vault.old)
        (V.state vault.new) (K.state out.old) (K.state out.new) result }
    ensures usage { IsOfNoForm words.now → result ≡ 1 }
    ensures usage_said { IsOfNoForm words.now → IsSaid (K.state out.old) (K.state out.new) usage_line }
    ensures usage_files { IsOfNoForm words.now → LeavesFiles (V.state vault.old) (V.state vault.new) }

    // Whatever the words are, what was told stays told, and no count falls.
    ensures vault { VaultGoesOn (V.state vault.old) (V.state vault.new) }
    ensures sink { SinkGoesOn (K.state out.old) (K.state out.new) }
{
    let _gate = gate;
    match command_of(words) {
        Some(Command::Check { bundle }) => run_check(alloc, bundle, vault, out),
        Some(Command::Render { session, name }) => {
            run_render(alloc, session, name, vault, out, codes)
        }
        None => {
            say_usage(out);
            Refusal::Usage.status()
        }
    }
}

/// Answers where the words can't be copied for want of memory, as every other want of memory is answered: puts the line,
/// and gives 14.
pub fn without_words<K: Sink>(out: &mut K) -> u8
    ensures status { result ≡ 14 }
    ensures said { IsSaid (K.state out.old) (K.state out.new) no_memory_line }
    ensures sink { SinkGoesOn (K.state out.old) (K.state out.new) }
{
    say_no_memory(out);
    Refusal::NoMemory.status()
}
