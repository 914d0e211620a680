ghost use Rattle.std.specs.Prelude.{◌≡◌, []};
ghost use Rattle.plug_api.specs.Meaning.{BackMeaning};
ghost use Rattle.plug_api.specs.Running.{Works};

use crate::{Respond, Sched};
use state_store::{Props, Shelf};

/// The part of an instance that works beside the runs. It shares nothing with the front but jobs and responses.
pub trait Back: Drop {
    /// What the calls mean.
    ghost meaning: { BackMeaning Self };

    /// Does a job, and may respond. The answer is a status: 0 where it was done.
    fn work<R: Respond>(&mut self, body: &[u8], answer: &mut R) -> u8
        ensures { Works (meaning.work self.old body.now) R.went answer.old self.new result answer.new };

    /// Stores its state on an empty shelf. The answer is a status: 0 where all was stored.
    fn save(&self, shelf: &mut Shelf) -> u8
        requires { shelf.old.rows ≡ [] }
        ensures status { result ≡ (meaning.save self.now shelf.old.mapped).0 }
        ensures shelf { shelf.new ≡ record shelf.old { rows = (meaning.save self.now shelf.old.mapped).1 } };

    /// Takes its state back beside the runs, and may schedule jobs for itself to end that. The answer is a status.
    fn restore_safe<S: Sched>(&mut self, from: &Props, sched: &mut S) -> u8
        ensures { Works (meaning.restore_safe self.old from.now) S.went sched.old self.new result sched.new };
}
