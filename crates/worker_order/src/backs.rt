ghost use Rattle.std.specs.Prelude.{◌≡◌, ◌∷◌, ◌<◌, ◌≤◌, ◌^◌, ℕ, Bool, length, replicate, true, IfOk};
ghost use Rattle.step_law.specs.Actor.{actor_number};
ghost use Rattle.record_law.specs.Message.{History};
ghost use Rattle.record_law.specs.Worker as law;
ghost use Rattle.worker_order.specs.Backs.{AreBacks, holds, back_after};
ghost use Rattle.record_terms.specs.Message.{meaning_of};

use lv_base::{Items, NoMemory};
use record_terms::{Message, is_on};
use std::alloc::Global;
use step_law::{Entry, Kind, Ring};

/// A back that an entry moves, and whether the worker has it then.
#[derive(Clone, Copy)]
pub(crate) struct MovedBack {
    pub(crate) inst: u32,
    pub(crate) here: bool,
}

/// All backs are the worker's.
pub(crate) fn all_held(alloc: Global, count: usize) -> Result<Items<bool>, NoMemory>
    ensures { IfOk result (λ backs. backs ≡ replicate count true) }
{
    let backs = vec![in alloc; true; count]?;
    Ok(Items::from_vec(backs))
}

/// Whether a worker has the back of an instance.
pub(crate) fn has_back(backs: &Items<bool>, inst: u32) -> bool
    ensures { result ≡ holds backs.now inst }
{
    backs.get(inst as usize).copied().unwrap_or(false)
}

/// Notes what an entry of a worker's does to the backs: it takes what control gives, and sends control a back.
pub(crate) fn note_back(backs: &mut Items<bool>, worker: u32, entry: Entry, about: Message)
    requires { worker ≤ 8 }
    ensures count { length backs.new ≡ length backs.old }
    ensures noted { (h : History) → AreBacks worker backs.old h → AreBacks worker backs.new (record { entry = entry; about = meaning_of about } ∷ h) }
{
    if let Some(moved) = moved_by(worker, entry, about) {
        let inst = moved.inst as usize;
        if inst < backs.len() {
            backs.set(inst, moved.here);
        }
    }
}

fn moved_by(worker: u32, entry: Entry, about: Message) -> Option<MovedBack>
    requires { worker ≤ 8 }
    ensures { (inst : ℕ) (before : Bool)
        → law.back_after worker inst (record { entry = entry; about = meaning_of about }) before ≡ back_after result inst before }
{
    if is_on(Kind::Take, Ring::ControlToWorker(worker), entry) {
        given(about)
    } else if is_on(Kind::Send, Ring::WorkerToControl(worker), entry) {
        sent(about)
    } else {
        None
    }
}

fn given(about: Message) -> Option<MovedBack>
    ensures { (inst : ℕ) (before : Bool) → law.given_back inst (meaning_of about) before ≡ back_after result inst before }
{
    match about {
        Message::Give(inst) => Some(MovedBack { inst, here: true }),
        _ => None,
    }
}

fn sent(about: Message) -> Option<MovedBack>
    ensures { (inst : ℕ) (before : Bool) → law.sent_back inst (meaning_of about) before ≡ back_after result inst before }
{
    match about {
        Message::Part(inst) => Some(MovedBack { inst, here: false }),
        _ => None,
    }
}
