ghost use Rattle.std.specs.Prelude.{◌≡◌, ◌∷◌};
ghost use Rattle.record_law.specs.Message.{Message, History};
ghost use Rattle.control_order.specs.Progress.{IsProgress, further, is_reached};

use record_terms::is_kind;
use step_law::{Entry, Kind};

/// Whether control has seen that a block is reached.
pub(crate) fn is_reached(progress: Option<u32>, block: u32) -> bool
    ensures { result ≡ is_reached progress block }
{
    match progress {
        Some(progress) => block <= progress,
        None => false,
    }
}

/// The progress that control has seen after an entry of its own.
pub(crate) fn progress_after(progress: Option<u32>, entry: Entry) -> Option<u32>
    ensures { (h : History) (about : Message) → IsProgress progress h → IsProgress result (record { entry = entry; about = about } ∷ h) }
{
    if is_kind(Kind::Beat, entry) {
        Some(further(progress, entry.a))
    } else {
        progress
    }
}

fn further(progress: Option<u32>, seen: u32) -> u32
    ensures { result ≡ further progress seen }
{
    match progress {
        Some(before) => before.max(seen),
        None => seen,
    }
}
