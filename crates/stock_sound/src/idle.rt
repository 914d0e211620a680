ghost use Rattle.std.specs.Prelude.{[]};

use plug_api::{Back, Respond, Sched};
use state_store::{Props, Shelf};

/// The status of a call of which a code knows nothing.
const UNKNOWN: u8 = 1;

/// The back of a code that has no worker and no state: it does nothing.
#[derive(Clone, Copy, Debug)]
pub struct Idle;

impl Back for Idle {
    ghost use Rattle.stock_sound.specs.Plain.{idle};

    ghost meaning = { idle };

    fn work<R: Respond>(&mut self, _body: &[u8], _answer: &mut R) -> u8 {
        UNKNOWN
    }

    fn save(&self, _shelf: &mut Shelf) -> u8 {
        UNKNOWN
    }

    fn restore_safe<S: Sched>(&mut self, _from: &Props, _sched: &mut S) -> u8 {
        UNKNOWN
    }
}
