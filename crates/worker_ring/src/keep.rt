ghost use Rattle.std.specs.Prelude.{◌≡◌};
ghost use Rattle.interaction.specs.Attempts.{Attempt as Tried};
ghost use Rattle.worker_ring.specs.Answering.{kind_by, with_kept};

use arrayvec::ArrayVec;
use step_record::{Kind, Parcel};

/// How many attempts of a call are kept.
pub(crate) const MOST_KEPT: usize = 16;

const SUCCESS: u8 = 0;

/// An attempt of a call.
#[derive(Default, Drop)]
pub struct Attempt {
    /// Its body, if that is at most 256 bytes long.
    pub body: Option<Parcel>,
    /// Its answer.
    pub answer: u8,
}

/// Keeps an attempt after the others, if fewer than 16 are kept.
pub(crate) fn keep(made: &mut ArrayVec<Attempt, MOST_KEPT>, body: &[u8], answer: u8)
    ensures { made.new.items ≡ with_kept made.old.items (record { body = body.now; answer = answer }) }
{
    if made.len() < MOST_KEPT {
        made.push(Attempt {
            body: Parcel::new(body),
            answer,
        });
    }
}

/// The kind of the entry that tells of an attempt with this body and a recorded answer.
pub(crate) fn kind_by(answer: u8, body: &[u8]) -> Kind
    ensures { result ≡ kind_by answer body.now }
{
    if answer == SUCCESS {
        Kind::Send
    } else if body.len() > 256 {
        Kind::Long
    } else {
        Kind::Full
    }
}
