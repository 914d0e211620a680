ghost use Rattle.std.specs.Prelude.{◌≡◌, ◌∷◌, ◌≤◌, length, min, replicate, IfOk};
ghost use Rattle.step_law.specs.Ring.{ring_at};
ghost use Rattle.record_law.specs.Entries.{is_kind};
ghost use Rattle.record_law.specs.History.{one_more};
ghost use Rattle.record_law.specs.Message.{Message, History};
ghost use Rattle.worker_order.specs.Locals.{AreLocals, has_local, local_inst, most_counted};

use crate::worker_stage::LocalCount;
use lv_base::{Items, NoMemory};
use record_terms::is_kind;
use std::alloc::Global;
use step_law::{Entry, Kind, Ring};

/// No job was sent or taken.
pub(crate) fn none_sent(alloc: Global, count: usize) -> Result<Items<LocalCount>, NoMemory>
    ensures { IfOk result (λ locals. locals ≡ replicate count (record { sent = 0; taken = 0 })) }
{
    let none = LocalCount { sent: 0, taken: 0 };
    let locals = vec![in alloc; none; count]?;
    Ok(Items::from_vec(locals))
}

/// Whether a job waits that a restore of the instance scheduled.
pub(crate) fn has_local(locals: &Items<LocalCount>, inst: u32) -> bool
    ensures { result ≡ has_local locals.now inst }
{
    locals
        .get(inst as usize)
        .is_some_and(|it| it.taken < it.sent)
}

/// Counts an entry of the worker's, if it sends or takes a job of a restore.
pub(crate) fn note_local(locals: &mut Items<LocalCount>, entry: Entry)
    requires { length locals.old ≤ 32 }
    ensures count { length locals.new ≡ length locals.old }
    ensures noted { (h : History) (about : Message) → AreLocals locals.old h → AreLocals locals.new (record { entry = entry; about = about } ∷ h) }
{
    if let Some(inst) = local_inst(entry.a) {
        if let Some(before) = locals.get(inst as usize).copied() {
            locals.set(inst as usize, counted(before, entry));
        }
    }
}

fn local_inst(ring: u32) -> Option<u32>
    ensures { result ≡ local_inst (ring_at ring) }
{
    match Ring::from_number(ring) {
        Ring::LocalJobs(inst) => Some(inst),
        _ => None,
    }
}

fn counted(before: LocalCount, entry: Entry) -> LocalCount
    ensures sent { result.sent ≡ min (one_more (is_kind Kind.Send entry) before.sent) most_counted }
    ensures taken { result.taken ≡ min (one_more (is_kind Kind.Take entry) before.taken) most_counted }
{
    LocalCount {
        sent: one_more(is_kind(Kind::Send, entry), before.sent),
        taken: one_more(is_kind(Kind::Take, entry), before.taken),
    }
}

fn one_more(more: bool, count: u64) -> u64
    ensures { result ≡ min (one_more more count) most_counted }
{
    if more { count.saturating_add(1) } else { count }
}
