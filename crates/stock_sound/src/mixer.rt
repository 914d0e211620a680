ghost use Rattle.std.specs.Prelude.{◌≡◌, [], ◌∷◌, length, IsTrue};
ghost use Rattle.lv_base.specs.Number.{mix_of};
ghost use Rattle.plug_api.specs.Buffers.{with_block};
ghost use Rattle.plug_api.specs.Ports.{ports_of, inputs_of, outs_of, place_of, IsLent, IsSameLoan};
ghost use Rattle.stock_sound.specs.Mixer.{has_mixer_ports, mixed, mixer_sound};

use lv_base::{Fixed, Sample, to_sample};
use plug_api::{Front, Ports, Sched};

const A: u32 = 0;

const B: u32 = 1;

const OUT: u32 = 2;

/// `urn:lv2fx:mix`: the sum of two inputs.
#[derive(Clone, Copy, Debug)]
pub struct Mixer;

impl Front for Mixer {
    ghost use Rattle.stock_sound.specs.Mixer.{mixer};

    ghost meaning = { mixer };

    fn activate(&mut self) {}

    fn deactivate(&mut self) {}

    fn run<S: Sched>(&mut self, ports: &mut Ports<'_>, _sched: &mut S) {
        play_mixer(ports);
    }

    fn work_response(&mut self, _body: &[u8]) {}

    fn end_run(&mut self) {}
}

fn play_mixer(ports: &mut Ports<'_>)
    requires ports { IsTrue (has_mixer_ports (ports_of ports.old)) }
    requires lent { IsLent ports.old }
    ensures sound { outs_of ports.new ≡ with_block (outs_of ports.old) (place_of ports.old 2) (mixer_sound (inputs_of ports.old)) }
    ensures same_loan { IsSameLoan ports.old ports.new }
{
    let a = ports.input(A);
    let b = ports.input(B);
    mix_into(a, b, ports.output(OUT));
}

// Puts the mix of two signals into a third.
fn mix_into(a: &[Sample], b: &[Sample], out: &mut [Sample])
    requires first { length a.now ≡ length out.old }
    requires second { length b.now ≡ length out.old }
    ensures { out.new ≡ mixed a.now b.now }
{
    for frame in 0..out.len() {
        out[frame] = mix_of_two(a[frame], b[frame]);
    }
}

fn mix_of_two(a: Sample, b: Sample) -> Sample
    ensures { result ≡ mix_of (a ∷ b ∷ []) }
{
    to_sample(Fixed(i64::from(a.0) + i64::from(b.0)))
}
