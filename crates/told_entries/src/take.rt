ghost use Rattle.std.specs.Prelude.{◌≡◌, [], ◌∷◌, ◌++◌, IfOk};
ghost use Rattle.record_terms.specs.Message.{meaning_of};
ghost use Rattle.record_terms.specs.Session.{IsSession};
ghost use Rattle.order_base.specs.There.{IsThere};
ghost use Rattle.judged_log.specs.Followed.{IsFollowed, entries_of};
ghost use Rattle.record_counts.specs.Step.{step_of};
ghost use Rattle.told_entries.specs.GoingOn.{TakeGoesOn};

use judged_log::{Halt, JudgedLog};
use record_law::Shape;
use record_terms::Message;
use step_record::{Entry, Kind};

/// Adds a take, and gives what it is about: it brings the oldest body that waits. An entry of another kind is astray.
pub fn mark_take<F, B>(log: &mut JudgedLog, shape: &Shape, entry: Entry) -> Result<Message, Halt>
    requires session { IsSession shape.now }
    requires followed { IsFollowed shape.now (entries_of log.old.log.items) log.old.follower }
    ensures entries { IfOk result (λ about. entries_of log.new.log.items ≡ entries_of log.old.log.items ++ entry ∷ []) }
    ensures followed { IfOk result (λ about. IsFollowed shape.now (entries_of log.new.log.items) log.new.follower) }
    ensures there { IfOk result (IsThere shape.now) }
    ensures goes_on { IfOk result (λ about. TakeGoesOn F B shape.now (entries_of log.old.log.items) (entries_of log.new.log.items) (step_of entry (meaning_of about))) }
{
    match entry.kind {
        Kind::Take => log.mark(shape, entry),
        _ => Err(Halt::Astray),
    }
}
