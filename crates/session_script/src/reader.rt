ghost use Rattle.std.specs.Prelude.{◌≡◌, ◌+◌, ◌<◌, ◌≤◌, ◌^◌, ◌==◌, ℕ, List, length, count_by, IfOk, IfErr};
ghost use Rattle.session_script.specs.declared.session.Session.{Session};
ghost use Rattle.session_script.specs.declared.fault.ScriptFault.TheVariants as faults;
ghost use Rattle.session_script.specs.declared.fault.ScriptRule.{ScriptRule};
ghost use Rattle.session_script.specs.declared.fault.Limit.{Limit};
ghost use Rattle.session_script.specs.Line.{line_of, lines_of};
ghost use Rattle.session_script.specs.Script.{IsSessionOf, IsFirstBroken, IsPast, HasAnswer};
ghost use Rattle.session_script.specs.Answer.{Refuses, Finishes, IsFaultOrNoMemory, IsSessionOrNoMemory, ReadsLines, ReadsText};
ghost use Rattle.session_script.specs.Limits.{AreInBounds};
ghost use Rattle.session_script.specs.Script as spec;
ghost use Rattle.session_script.specs.Step.{Takes};
ghost use Rattle.session_script.specs.Valid.{IsValid};
ghost use Rattle.session_script.specs.Words.{words};

use crate::draft::Draft;
use crate::fault::{ScriptFault, ScriptRule};
use crate::limits::passed;
use crate::rules::broken_rule;
use crate::session::Session;
use crate::statement::statement_of;
use std::alloc::Global;

/// The session that a script says, or the first line that breaks a rule with the first rule that it breaks, or the first
/// limit that the session passes.
///
/// A script is UTF-8, in lines of words. A line without a word, or whose first word begins with `#`, is skipped. The first
/// other line is `lv2fx 1`. Then the kinds of lines follow in this order: the settings, `bundle`, `inst`, `set`, `cable`,
/// `out`, `at`. See [`ScriptRule`] for the rules of a line, and [`crate::Limit`] for the limits.
pub fn read(alloc: Global, bytes: &[u8]) -> Result<Session, ScriptFault>
    requires { length bytes.now < 2 ^ 32 }
    ensures ok { IfOk result (IsSessionOf bytes.now) }
    ensures valid { IfOk result IsValid }
    ensures err { IfErr result (Refuses bytes.now) }

    // Every script is answered: the only other answer is that memory was refused.
    ensures session { (session : Session) → IsSessionOf bytes.now session → IsSessionOrNoMemory session result }
    ensures broken { (line : ℕ) (rule : ScriptRule) → IsFirstBroken bytes.now line rule → IsFaultOrNoMemory (faults.Bad line rule) result }
    ensures past { (which : Limit) (number : ℕ) → IsPast bytes.now which number → IsFaultOrNoMemory (faults.Limit which number) result }
{
    match simdutf8::compat::from_utf8(bytes) {
        Ok(text) => read_text(alloc, text),
        Err(fault) => {
            let line = lines_in(&bytes[..fault.valid_up_to()]) + 1;
            Err(ScriptFault::Bad(line, ScriptRule::Utf8))
        }
    }
}

/// A law, and no step of a program: a script has one answer.
pub fn one_answer()
    ensures session { (script : List ℕ) (a b : Session) → IsSessionOf script a → IsSessionOf script b → a ≡ b }
    ensures line { (script : List ℕ) (m n : ℕ) (r s : ScriptRule) → IsFirstBroken script m r → IsFirstBroken script n s → (m ≡ n) × (r ≡ s) }
    ensures limit { (script : List ℕ) (v w : Limit) (m n : ℕ) → IsPast script v m → IsPast script w n → (v ≡ w) × (m ≡ n) }
    ensures no_line { (script : List ℕ) (session : Session) (n : ℕ) (r : ScriptRule) → IsSessionOf script session → ¬ IsFirstBroken script n r }
    ensures no_limit { (script : List ℕ) (session : Session) (w : Limit) (n : ℕ) → IsSessionOf script session → ¬ IsPast script w n }
    ensures line_first { (script : List ℕ) (m : ℕ) (r : ScriptRule) (w : Limit) (n : ℕ) → IsFirstBroken script m r → ¬ IsPast script w n }
{}

/// A law, and no step of a program: every script has an answer.
pub fn some_answer()
    ensures { (script : List ℕ) → HasAnswer script }
{}

/// How many lines end in these bytes.
fn lines_in(bytes: &[u8]) -> u32
    requires { length bytes.now < 2 ^ 32 }
    ensures value { result ≡ count_by (λ byte. byte == 10) bytes.now }
    ensures few { result ≤ length bytes.now }
{
    bytes.iter().filter(|byte| **byte == b'\n').count() as u32
}

/// The session that a text says.
fn read_text(alloc: Global, text: &str) -> Result<Session, ScriptFault>
    requires { length text.now < 2 ^ 32 }
    ensures { ReadsText (lines_of text.now) result }
{
    let draft = read_lines(alloc, text)?;
    finish(draft)
}

/// What all lines say together.
fn read_lines(alloc: Global, text: &str) -> Result<Draft, ScriptFault>
    requires { length text.now < 2 ^ 32 }
    ensures reads { ReadsLines (lines_of text.now) result }
    ensures bounds { IfOk result (λ draft. AreInBounds draft.numbers) }
{
    let mut draft = Draft::new(alloc);
    let mut number = 0;
    for line in text.lines() {
        number += 1;
        read_line(alloc, &mut draft, number, line)?;
    }
    Ok(draft)
}

/// Adds a line to a draft, if it breaks no rule.
fn read_line(alloc: Global, draft: &mut Draft, number: u32, line: &str) -> Result<(), ScriptFault>
    requires few { length draft.old.insts < number }
    requires bounds { AreInBounds draft.old.numbers }
    ensures { Takes draft.old number (line_of (words line.now)) result draft.new }
{
    let statement = statement_of(line);
    match broken_rule(draft, statement) {
        Some(rule) => Err(ScriptFault::Bad(number, rule)),
        None => {
            draft.add(alloc, number, statement)?;
            Ok(())
        }
    }
}

/// The session of a whole draft: a setting that doesn't stand has its default.
fn finish(draft: Draft) -> Result<Session, ScriptFault>
    requires { AreInBounds draft.numbers }
    ensures { Finishes draft result }
{
    if draft.section.order() == 0 {
        return Err(ScriptFault::Bad(1, ScriptRule::Head));
    }
    let session = session_from(draft);
    match passed(&session) {
        Some((which, number)) => Err(ScriptFault::Limit(which, number)),
        None => Ok(session),
    }
}

fn session_from(draft: Draft) -> Session
    ensures { result ≡ spec.session_from draft }
{
    let numbers = draft.numbers;
    Session {
        rate: numbers.rate.unwrap_or(48_000),
        block: numbers.block.unwrap_or(256),
        blocks: numbers.blocks(),
        workers: numbers.workers(),
        cells: numbers.cells.unwrap_or(8),
        reserve: numbers.reserve.map(u64::from),
        bundles: draft.bundles,
        insts: draft.insts.into_items(),
        sets: draft.sets,
        cables: draft.cables,
        outs: draft.outs,
        actions: draft.actions,
    }
}
