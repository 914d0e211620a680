ghost use Rattle.std.specs.Prelude.{◌≡◌, length, map};
ghost use Rattle.lv_base.specs.Number.{gained};
ghost use Rattle.audio_api.specs.Ports.{AreLent, inputs_of, outputs_of, reference_of, with_output};
ghost use Rattle.audio_api.specs.StockPorts.{amp_ports};
ghost use Rattle.host_main.specs.StockSound.{amplifier_sound};

use audio_api::Ports;
use lv_base::{Fixed, Sample, gain};

const GAIN: u32 = 0;

const IN: u32 = 1;

const OUT: u32 = 2;

/// Plays a block of an amplifier: each sample of the input times the gain.
pub fn run_amplifier(ports: &mut Ports<'_>)
    requires { AreLent amp_ports ports.old }
    ensures sound { outputs_of ports.new ≡ with_output ports.old amp_ports.audio_out (amplifier_sound (inputs_of ports.old)) }
    ensures whole { length (amplifier_sound (inputs_of ports.old)) ≡ (inputs_of ports.old).frames }
    ensures same_reference { reference_of ports.new ≡ reference_of ports.old }
{
    let factor = ports.value(GAIN);
    let input = ports.input(IN);
    amplify(input, factor, ports.output(OUT));
}

/// Puts each sample of `input` times `factor` into the frame of `output` with its number.
fn amplify(input: &[Sample], factor: Fixed, output: &mut [Sample])
    requires { length input.now ≡ length output.old }
    ensures { output.new ≡ map (λ sample. gained sample factor) input.now }
{
    for (i, sample) in output.iter_mut().enumerate() {
        *sample = gain(input[i], factor);
    }
}
