ghost use Rattle.std.specs.Prelude.{◌≡◌, ℕ};
ghost use Rattle.step_law.specs.Actor.{actor_at};
ghost use Rattle.step_law.specs.Entry.{begin_of, end_of};

use step_record::{Actor, Call, Entry, Marks};

/// Marks that a call on an instance begins.
pub(crate) fn begin<K: Marks>(marks: &mut K, call: Call, inst: u32)
    requires { K.can_mark marks.old }
    ensures { (ticket : ℕ) × K.marked marks.old (begin_of (actor_at (K.actor_of marks.old)) call inst) ticket marks.new }
{
    let actor = Actor::from_number(marks.actor());
    let _ = marks.mark(Entry::begin(actor, call, inst));
}

/// Marks that it has ended.
pub(crate) fn end<K: Marks>(marks: &mut K, call: Call, inst: u32)
    requires { K.can_mark marks.old }
    ensures { (ticket : ℕ) × K.marked marks.old (end_of (actor_at (K.actor_of marks.old)) call inst) ticket marks.new }
{
    let actor = Actor::from_number(marks.actor());
    let _ = marks.mark(Entry::end(actor, call, inst));
}
