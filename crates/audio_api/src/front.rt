ghost use Rattle.std.specs.Prelude.{◌≡◌, List, ℕ, length};
ghost use Rattle.lv_base.specs.declared.number.Sample.{Sample};
ghost use Rattle.audio_api.specs.Inputs.{Inputs};
ghost use Rattle.audio_api.specs.Ports.{ArePortsOf, inputs_of, outputs_of, reference_of, filled};

use crate::Ports;

/// The part of an instance that makes sound: `activate`, then a run for each block, then `deactivate`.
/// What each call does is a function of plain values, so a run can be told and repeated.
pub trait Front: Drop {
    /// The URI of the code that it was made of.
    ghost uri_of: { Self → List ℕ };

    /// The front after `activate`.
    ghost activate_of: { Self → Self };

    /// The front after `deactivate`.
    ghost deactivate_of: { Self → Self };

    /// The front after a run with these inputs, and what the audio output then has.
    ghost run_of: { Self → Inputs → Self × List Sample };

    /// Makes the front ready for its first run.
    fn activate(&mut self)
        ensures { self.new ≡ activate_of self.old };

    /// Ends the runs.
    fn deactivate(&mut self)
        ensures { self.new ≡ deactivate_of self.old };

    /// Plays one block: reads the inputs, and fills the audio output.
    fn run(&mut self, ports: &mut Ports<'_>)
        requires { ArePortsOf (uri_of self.old) ports.old }

        ensures front { self.new ≡ (run_of self.old (inputs_of ports.old)).0 }
        ensures outputs { outputs_of ports.new ≡ filled (uri_of self.old) ports.old (run_of self.old (inputs_of ports.old)).1 }
        ensures whole { length (run_of self.old (inputs_of ports.old)).1 ≡ (inputs_of ports.old).frames }

        // The ports still lead to the outputs that they were lent over.
        ensures same_reference { reference_of ports.new ≡ reference_of ports.old };

    ghost activate_keeps: { (front : Self) → uri_of (activate_of front) ≡ uri_of front };

    ghost deactivate_keeps: { (front : Self) → uri_of (deactivate_of front) ≡ uri_of front };

    ghost run_keeps: { (front : Self) (given : Inputs) → uri_of (run_of front given).0 ≡ uri_of front };
}
