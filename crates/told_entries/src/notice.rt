ghost use Rattle.std.specs.Prelude.{◌≡◌, ◌<◌, [], ◌∷◌, ◌++◌, true, length, IfOk};
ghost use Rattle.step_law.specs.declared.actor.Actor.TheVariants as actors;
ghost use Rattle.step_law.specs.declared.entry.Kind.TheVariants as kinds;
ghost use Rattle.record_law.specs.Entries.{is_by, is_kind};
ghost use Rattle.record_law.specs.Message.{Message as Meant};
ghost use Rattle.record_law.specs.Message.Message.{notice};
ghost use Rattle.record_terms.specs.Session.{IsSession};
ghost use Rattle.judged_log.specs.Followed.{IsFollowed, entries_of};
ghost use Rattle.play_known.specs.Telling.{is_try};
ghost use Rattle.record_counts.specs.Step.{step_of};
ghost use Rattle.told_entries.specs.GoingOn.{NoticeGoesOn};

use judged_log::{Halt, JudgedLog};
use record_law::Shape;
use record_terms::Message;
use step_record::{Entry, Kind};

/// Adds an entry by which audio tells a notice or can't, where it is said whether the notice is too long. Gives the instance whose notice it
/// is. An entry of another form, or about something else, is astray.
pub fn mark_notice<F, B>(
    log: &mut JudgedLog,
    shape: &Shape,
    entry: Entry,
    long: bool,
) -> Result<u32, Halt>
    requires session { IsSession shape.now }
    requires followed { IsFollowed shape.now (entries_of log.old.log.items) log.old.follower }
    ensures entries { IfOk result (λ inst. entries_of log.new.log.items ≡ entries_of log.old.log.items ++ entry ∷ []) }
    ensures followed { IfOk result (λ inst. IsFollowed shape.now (entries_of log.new.log.items) log.new.follower) }
    ensures there { IfOk result (λ inst. inst < length shape.now.insts) }
    ensures goes_on { IfOk result (λ inst. NoticeGoesOn F B long shape.now (entries_of log.old.log.items) (entries_of log.new.log.items) (step_of entry (notice inst))) }
{
    if !tells(entry, long) {
        return Err(Halt::Astray);
    }
    match log.mark(shape, entry)? {
        Message::Notice(inst) => Ok(inst),
        _ => Err(Halt::Astray),
    }
}

/// Whether audio tries to send by an entry, which says that the message is too long exactly where it is said to be.
fn tells(entry: Entry, long: bool) -> bool
    ensures by_audio { result ≡ true → is_by actors.Audio entry ≡ true }
    ensures tries { result ≡ true → (about : Meant) → is_try (step_of entry about) ≡ true }
    ensures long { result ≡ true → long ≡ is_kind kinds.Long entry }
{
    entry.actor == 0 && tries(entry.kind, long)
}

/// Whether a kind is a try to send, and says that the message is too long exactly where it is said to be.
fn tries(kind: Kind, long: bool) -> bool
    ensures tries { (entry : Entry) → entry.kind ≡ kind → result ≡ true → (about : Meant) → is_try (step_of entry about) ≡ true }
    ensures long { (entry : Entry) → entry.kind ≡ kind → result ≡ true → long ≡ is_kind kinds.Long entry }
{
    match kind {
        Kind::Send | Kind::Full => !long,
        Kind::Long => long,
        _ => false,
    }
}
