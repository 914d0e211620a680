ghost use Rattle.std.specs.Prelude.{◌≡◌, take, map};
ghost use Rattle.run_notices.specs.Answers.{answers_in, kept};

use crate::answer::next_answer;
use arrayvec::ArrayVec;
use atom_core::Events;
use step_record::Parcel;

/// How many notices a run tells at most.
pub const MOST_NOTICES: usize = 16;

/// What a run tells, in order. Of each notice its bytes, or `None` where they are too many for a message.
pub type Notices = ArrayVec<Option<Parcel>, MOST_NOTICES>;

/// How many bytes a message has at most.
const MOST_BYTES: usize = 256;

/// A notice as it is kept.
#[tactic(auto, using(crate::proofs::Heard::short_kept, crate::proofs::Heard::long_kept))]
fn notice_of(answer: &[u8]) -> Option<Parcel>
    ensures { result ≡ kept answer.now }
{
    if answer.len() > MOST_BYTES {
        return None;
    }
    Parcel::new(answer)
}

/// Puts what a run tells by the events at its reply port, in place of what was there. It takes no memory.
#[tactic(auto, using(crate::proofs::Heard::told_on, crate::proofs::Heard::told_out, crate::proofs::Heard::told_full))]
pub fn tell(mut events: Events<'_>, notices: &mut Notices)
    ensures { notices.new.items ≡ map kept (take 16 (answers_in events.entry)) }
{
    notices.clear();
    while notices.len() < MOST_NOTICES {
        let Some(answer) = next_answer(&mut events) else {
            return;
        };
        notices.push(notice_of(answer));
    }
}
