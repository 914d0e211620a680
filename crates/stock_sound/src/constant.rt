ghost use Rattle.std.specs.Prelude.{◌≡◌, IsTrue};
ghost use Rattle.plug_api.specs.Buffers.{with_block};
ghost use Rattle.plug_api.specs.Ports.{ports_of, inputs_of, outs_of, place_of, IsLent, IsSameLoan};
ghost use Rattle.stock_sound.specs.Constant.{has_constant_ports, constant_sound};

use lv_base::to_sample;
use plug_api::{Front, Ports, Sched};

const VALUE: u32 = 0;

const OUT: u32 = 1;

/// `urn:lv2fx:const`: a control value as sound.
#[derive(Clone, Copy, Debug)]
pub struct Constant;

impl Front for Constant {
    ghost use Rattle.stock_sound.specs.Constant.{constant};

    ghost meaning = { constant };

    fn activate(&mut self) {}

    fn deactivate(&mut self) {}

    fn run<S: Sched>(&mut self, ports: &mut Ports<'_>, _sched: &mut S) {
        play_constant(ports);
    }

    fn work_response(&mut self, _body: &[u8]) {}

    fn end_run(&mut self) {}
}

fn play_constant(ports: &mut Ports<'_>)
    requires ports { IsTrue (has_constant_ports (ports_of ports.old)) }
    requires lent { IsLent ports.old }
    ensures sound { outs_of ports.new ≡ with_block (outs_of ports.old) (place_of ports.old 1) (constant_sound (inputs_of ports.old)) }
    ensures same_loan { IsSameLoan ports.old ports.new }
{
    let sample = to_sample(ports.value(VALUE));
    ports.output(OUT).fill(sample);
}
