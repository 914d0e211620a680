ghost use Rattle.std.specs.Prelude.{◌≡◌, IsTrue};
ghost use Rattle.plug_api.specs.Buffers.{with_block};
ghost use Rattle.plug_api.specs.Ports.{ports_of, inputs_of, outs_of, place_of, IsLent, IsSameLoan};
ghost use Rattle.stock_sound.specs.Amplifier.{has_amplifier_ports, amplifier_sound};

use plug_api::{Front, Ports, Sched};
use sound_block::gain_into;

const GAIN: u32 = 0;

const IN: u32 = 1;

const OUT: u32 = 2;

/// `urn:lv2fx:amp`: the input times a gain.
#[derive(Clone, Copy, Debug)]
pub struct Amplifier;

impl Front for Amplifier {
    ghost use Rattle.stock_sound.specs.Amplifier.{amplifier};

    ghost meaning = { amplifier };

    fn activate(&mut self) {}

    fn deactivate(&mut self) {}

    fn run<S: Sched>(&mut self, ports: &mut Ports<'_>, _sched: &mut S) {
        play_amplifier(ports);
    }

    fn work_response(&mut self, _body: &[u8]) {}

    fn end_run(&mut self) {}
}

fn play_amplifier(ports: &mut Ports<'_>)
    requires ports { IsTrue (has_amplifier_ports (ports_of ports.old)) }
    requires lent { IsLent ports.old }
    ensures sound { outs_of ports.new ≡ with_block (outs_of ports.old) (place_of ports.old 2) (amplifier_sound (inputs_of ports.old)) }
    ensures same_loan { IsSameLoan ports.old ports.new }
{
    let factor = ports.value(GAIN);
    let input = ports.input(IN);
    gain_into(input, factor, ports.output(OUT));
}
