ghost use Rattle.std.specs.Prelude.{◌≡◌, IsTrue};
ghost use Rattle.plug_api.specs.Meaning.{FrontMeaning};
ghost use Rattle.plug_api.specs.Ports.{ports_of, IsLent, IsSameLoan};
ghost use Rattle.plug_api.specs.Running.{Runs, FitsSame};

use crate::{Ports, Sched};

/// The part of an instance that makes sound: `activate`, then for each block a run, the responses that came, and `end_run`; then
/// `deactivate`. What each call does is a function of plain values, so it can be told and repeated.
pub trait Front: Drop {
    /// What the calls mean.
    ghost meaning: { FrontMeaning Self };

    /// Makes the front ready for its first run.
    fn activate(&mut self)
        ensures front { self.new ≡ meaning.activate self.old }
        ensures fits { FitsSame meaning.fits self.old self.new };

    /// Ends the runs.
    fn deactivate(&mut self)
        ensures front { self.new ≡ meaning.deactivate self.old }
        ensures fits { FitsSame meaning.fits self.old self.new };

    /// Plays one block: reads the inputs, writes the outputs, and may schedule jobs.
    fn run<S: Sched>(&mut self, ports: &mut Ports<'_>, sched: &mut S)
        requires fits { IsTrue (meaning.fits self.old (ports_of ports.old)) }
        requires lent { IsLent ports.old }
        ensures ran { Runs meaning.run S.went self.old ports.old sched.old self.new ports.new sched.new }
        ensures same_loan { IsSameLoan ports.old ports.new }
        ensures fits { FitsSame meaning.fits self.old self.new };

    /// Takes a response of the back.
    fn work_response(&mut self, body: &[u8])
        ensures front { self.new ≡ meaning.response self.old body.now }
        ensures fits { FitsSame meaning.fits self.old self.new };

    /// Comes after each run, once the responses of the block were delivered.
    fn end_run(&mut self)
        ensures front { self.new ≡ meaning.end_run self.old }
        ensures fits { FitsSame meaning.fits self.old self.new };
}
