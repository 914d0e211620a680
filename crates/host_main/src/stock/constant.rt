ghost use Rattle.std.specs.Prelude.{◌≡◌, length};
ghost use Rattle.audio_api.specs.Ports.{AreLent, inputs_of, outputs_of, reference_of, with_output};
ghost use Rattle.audio_api.specs.StockPorts.{const_ports};
ghost use Rattle.host_main.specs.StockSound.{constant_sound};

use audio_api::Ports;
use lv_base::to_sample;

const VALUE: u32 = 0;

const OUT: u32 = 1;

/// Plays a block of a constant: the value as a sample, in every frame.
pub fn run_constant(ports: &mut Ports<'_>)
    requires { AreLent const_ports ports.old }
    ensures sound { outputs_of ports.new ≡ with_output ports.old const_ports.audio_out (constant_sound (inputs_of ports.old)) }
    ensures whole { length (constant_sound (inputs_of ports.old)) ≡ (inputs_of ports.old).frames }
    ensures same_reference { reference_of ports.new ≡ reference_of ports.old }
{
    let sample = to_sample(ports.value(VALUE));
    ports.output(OUT).fill(sample);
}
