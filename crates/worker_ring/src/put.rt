ghost use Rattle.std.specs.Prelude.{◌≡◌, ◌≤◌};
ghost use Rattle.worker_ring.specs.Attempting.{kind_of, status_of, waiting_after};

use arrayvec::ArrayVec;
use step_record::{Kind, Parcel};

const SUCCESS: u8 = 0;

const NO_SPACE: u8 = 2;

/// Puts a body at the end of a list, where it isn't too long and fewer than `cells` wait there. Gives the kind of its entry, and the status.
pub(crate) fn put(list: &mut ArrayVec<Parcel, 64>, cells: u32, body: &[u8]) -> (Kind, u8)
    requires { cells ≤ 64 }
    ensures kind { result.0 ≡ kind_of cells list.old.items body.now }
    ensures status { result.1 ≡ status_of cells list.old.items body.now }
    ensures list { list.new.items ≡ waiting_after cells list.old.items body.now }
{
    match Parcel::new(body) {
        Some(parcel) if list.len() < cells as usize => {
            list.push(parcel);
            (Kind::Send, SUCCESS)
        }
        Some(_) => (Kind::Full, NO_SPACE),
        None => (Kind::Long, NO_SPACE),
    }
}
