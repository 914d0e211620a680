ghost use Rattle.std.specs.Prelude.{◌≡◌, length, replicate};
ghost use Rattle.lv_base.specs.Number.{sample_of};
ghost use Rattle.audio_api.specs.Inputs.{samples_at, value_at};
ghost use Rattle.audio_api.specs.Ports.{AreLent, inputs_of, outputs_of, reference_of, with_output};
ghost use Rattle.audio_api.specs.StockPorts.{const_ports, amp_ports};

use audio_api::{Codes, Front, Ports};
use lv_base::{NoMemory, Text, to_sample};
use std::alloc::Global;

/// Codes that do as little as can be heard: a constant, and an amplifier that gives what it gets.
#[derive(Clone, Copy, Debug)]
pub struct Toys;

#[derive(Clone, Copy, Debug)]
pub struct ToyFront {
    passes_on: bool,
}

impl Codes for Toys {
    ghost use Rattle.std.specs.Prelude.{not, refl};
    ghost use Rattle.std.specs.Str.{bytes_eq};
    ghost use Rattle.std.proofs.Common.{⊎_elim};
    ghost use Rattle.audio_api.specs.Stock.{const_uri};

    type Front = ToyFront;

    ghost make_of = { λ uri. record { passes_on = not (bytes_eq uri const_uri) } };

    ghost made_of = { λ uri stock. ⊎_elim (λ e. Prim.rw e refl) (λ e. Prim.rw e refl) stock };

    fn make(&self, _alloc: Global, uri: &Text) -> Result<ToyFront, NoMemory> {
        Ok(ToyFront {
            passes_on: uri.as_str() != "urn:lv2fx:const",
        })
    }
}

impl Front for ToyFront {
    ghost use Rattle.std.specs.Prelude.{if◌then◌else◌, replicate, refl};
    ghost use Rattle.lv_base.specs.Number.{sample_of};
    ghost use Rattle.audio_api.specs.Inputs.{samples_at, value_at};
    ghost use Rattle.audio_api.specs.Stock.{const_uri, amp_uri};

    ghost uri_of = { λ front. if front.passes_on then amp_uri else const_uri };

    ghost activate_of = { λ front. front };

    ghost deactivate_of = { λ front. front };

    ghost run_of = { λ front given. (front, if front.passes_on then samples_at given 1 else replicate given.frames (sample_of (value_at given 0))) };

    fn activate(&mut self) {}

    fn deactivate(&mut self) {}

    fn run(&mut self, ports: &mut Ports<'_>) {
        if self.passes_on {
            pass_on(ports);
        } else {
            stay_constant(ports);
        }
    }

    ghost activate_keeps = { λ front. refl };

    ghost deactivate_keeps = { λ front. refl };

    ghost run_keeps = { λ front given. refl };
}

fn pass_on(ports: &mut Ports<'_>)
    requires { AreLent amp_ports ports.old }
    ensures sound { outputs_of ports.new ≡ with_output ports.old amp_ports.audio_out (samples_at (inputs_of ports.old) 1) }
    ensures whole { length (samples_at (inputs_of ports.old) 1) ≡ (inputs_of ports.old).frames }
    ensures same_reference { reference_of ports.new ≡ reference_of ports.old }
{
    let input = ports.input(1);
    ports.output(2).copy_from_slice(input);
}

fn stay_constant(ports: &mut Ports<'_>)
    requires { AreLent const_ports ports.old }
    ensures sound { outputs_of ports.new ≡ with_output ports.old const_ports.audio_out (replicate (inputs_of ports.old).frames (sample_of (value_at (inputs_of ports.old) 0))) }
    ensures same_reference { reference_of ports.new ≡ reference_of ports.old }
{
    let sample = to_sample(ports.value(0));
    ports.output(1).fill(sample);
}
