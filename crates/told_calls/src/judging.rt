ghost use Rattle.std.specs.Prelude.{◌≡◌, ℕ, ◌+◌, ◌<◌, ◌≤◌, true, length, take, drop, slice_get, Some, IfOk, OnOk};
ghost use Rattle.step_law.specs.declared.entry.Entry.{Entry as EntryValue};
ghost use Rattle.record_law.specs.Protocol.{history_of, follow_in, about_in};
ghost use Rattle.record_law.specs.Message.Message.{nothing};
ghost use Rattle.record_terms.specs.Message.{meaning_of};
ghost use Rattle.record_terms.specs.Session.{IsSession};
ghost use Rattle.judged_log.specs.Followed.{IsFollowed, entries_of};
ghost use Rattle.play_known.specs.Calling.{AreTold};
ghost use Rattle.told_calls.specs.Steps as steps;

use judged_log::{Halt, JudgedLog};
use record_law::Shape;
use record_terms::Message;
use step_record::Kind;

/// Judges the entries of a call, those from a place on, where those before it were judged. Gives what the call is made for. A call whose
/// attempts aren't about bodies, or whose end is about something, is astray.
pub(crate) fn judge(log: &mut JudgedLog, shape: &Shape, from: usize) -> Result<Message, Halt>
    requires session { IsSession shape.now }
    requires from { from < length log.old.log.items }
    requires followed { IsFollowed shape.now (take from (entries_of log.old.log.items)) log.old.follower }
    ensures log { log.new.log ≡ log.old.log }
    ensures followed { IfOk result (λ about. IsFollowed shape.now (entries_of log.old.log.items) log.new.follower) }
    ensures told { IfOk result (λ about. AreTold shape.now (history_of shape.now (take from (entries_of log.old.log.items))) (steps.steps_for (meaning_of about) (drop from (entries_of log.old.log.items)))) }
{
    let count = log.len();
    let about = log.follow_at(shape, from)?;
    judge_later(log, shape, from + 1, count)?;
    Ok(about)
}

/// Judges a call that is made for nothing.
pub(crate) fn judge_unasked(log: &mut JudgedLog, shape: &Shape, from: usize) -> Result<(), Halt>
    requires session { IsSession shape.now }
    requires from { from < length log.old.log.items }
    requires followed { IsFollowed shape.now (take from (entries_of log.old.log.items)) log.old.follower }
    ensures log { log.new.log ≡ log.old.log }
    ensures followed { OnOk result (IsFollowed shape.now (entries_of log.old.log.items) log.new.follower) }
    ensures told { OnOk result (AreTold shape.now (history_of shape.now (take from (entries_of log.old.log.items))) (steps.steps_for nothing (drop from (entries_of log.old.log.items)))) }
{
    match judge(log, shape, from)? {
        Message::Nothing => Ok(()),
        _ => Err(Halt::Astray),
    }
}

/// Judges the entries after a call's begin.
fn judge_later(log: &mut JudgedLog, shape: &Shape, from: usize, count: usize) -> Result<(), Halt>
    requires session { IsSession shape.now }
    requires from { from ≤ length log.old.log.items }
    requires count { count ≡ length log.old.log.items }
    requires followed { IsFollowed shape.now (take from (entries_of log.old.log.items)) log.old.follower }
    ensures log { log.new.log ≡ log.old.log }
    ensures followed { OnOk result (IsFollowed shape.now (entries_of log.old.log.items) log.new.follower) }
    ensures told { OnOk result ((place : ℕ) (entry : EntryValue) → from ≤ place → slice_get (entries_of log.old.log.items) place ≡ Some entry
        → about_in (follow_in shape.now (history_of shape.now (take place (entries_of log.old.log.items))) entry) ≡ steps.message_in entry.kind) }
{
    for place in from..count {
        judge_at(log, shape, place)?;
    }
    Ok(())
}

/// Judges the entry at a place, one after a call's begin.
fn judge_at(log: &mut JudgedLog, shape: &Shape, place: usize) -> Result<(), Halt>
    requires session { IsSession shape.now }
    requires place { place < length log.old.log.items }
    requires followed { IsFollowed shape.now (take place (entries_of log.old.log.items)) log.old.follower }
    ensures log { log.new.log ≡ log.old.log }
    ensures followed { OnOk result (IsFollowed shape.now (take (place + 1) (entries_of log.old.log.items)) log.new.follower) }
    ensures told { OnOk result ((entry : EntryValue) → slice_get (entries_of log.old.log.items) place ≡ Some entry
        → about_in (follow_in shape.now (history_of shape.now (take place (entries_of log.old.log.items))) entry) ≡ steps.message_in entry.kind) }
{
    let about = log.follow_at(shape, place)?;
    let (_, entry) = log.log.items()[place];
    if is_in_call(entry.kind, about) {
        Ok(())
    } else {
        Err(Halt::Astray)
    }
}

/// Whether an entry of this kind is about what it is in a call.
fn is_in_call(kind: Kind, about: Message) -> bool
    ensures { result ≡ true → meaning_of about ≡ steps.message_in kind }
{
    match kind {
        Kind::End => matches!(about, Message::Nothing),
        _ => matches!(about, Message::Body),
    }
}
