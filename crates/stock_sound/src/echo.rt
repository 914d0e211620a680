ghost use Rattle.std.specs.Prelude.{◌≡◌, length, drop, ◌++◌, [], ◌∷◌, IsTrue};
ghost use Rattle.lv_base.specs.Number.{gained};
ghost use Rattle.plug_api.specs.Buffers.{with_block};
ghost use Rattle.plug_api.specs.Inputs.{samples_at, value_at};
ghost use Rattle.plug_api.specs.Ports.{ports_of, inputs_of, outs_of, place_of, IsLent, IsSameLoan};
ghost use Rattle.stock_sound.specs.Echo.{has_echo_ports, no_echo, oldest, echoed_sample, echoed, past_after};

use lv_base::{Fixed, Sample, gain, to_sample};
use plug_api::{Front, Ports, Sched};
use std::marker::Model;

const IN: u32 = 0;

const OUT: u32 = 1;

const FEEDBACK: u32 = 2;

const DELAY: usize = 8;

const SILENT: Sample = Sample(0);

/// `urn:lv2fx:echo`: the input, and what the echo gave eight frames before times the feedback. Contracts see the last eight samples that
/// it gave, the oldest first.
#[derive(Drop)]
pub struct Echo {
    ring: [Sample; 8],
    /// Where the oldest sample stands.
    next: usize,
}

impl Model for Echo {
    ghost use Rattle.std.specs.Prelude.{◌≡◌, ◌<◌, ◌++◌, List, length, take, drop};
    ghost use Rattle.lv_base.specs.declared.number.Sample.{Sample};

    ghost Value = { List Sample };

    ghost view = { λ echo. drop echo.next echo.ring ++ take echo.next echo.ring };

    ghost invariant = { λ echo. (echo.next < 8) × (length echo.ring ≡ 8) };
}

impl Echo {
    /// An echo that has given nothing.
    pub fn new() -> Self
        ensures { result ≡ no_echo }
    {
        Echo {
            ring: [SILENT; DELAY],
            next: 0,
        }
    }

    fn play(&mut self, ports: &mut Ports<'_>)
        requires ports { IsTrue (has_echo_ports (ports_of ports.old)) }
        requires lent { IsLent ports.old }
        ensures sound { outs_of ports.new ≡ with_block (outs_of ports.old) (place_of ports.old 1) (echoed (value_at (inputs_of ports.old) 2) self.old (samples_at (inputs_of ports.old) 0)) }
        ensures past { self.new ≡ past_after (value_at (inputs_of ports.old) 2) self.old (samples_at (inputs_of ports.old) 0) }
        ensures same_loan { IsSameLoan ports.old ports.new }
    {
        let feedback = ports.value(FEEDBACK);
        let input = ports.input(IN);
        self.echo_into(input, feedback, ports.output(OUT));
    }

    fn echo_into(&mut self, input: &[Sample], feedback: Fixed, out: &mut [Sample])
        requires { length out.old ≡ length input.now }
        ensures sound { out.new ≡ echoed feedback self.old input.now }
        ensures past { self.new ≡ past_after feedback self.old input.now }
    {
        for frame in 0..input.len() {
            out[frame] = self.step(input[frame], feedback);
        }
    }

    // Goes on by one frame.
    fn step(&mut self, sample: Sample, feedback: Fixed) -> Sample
        ensures sample { result ≡ echoed_sample feedback (oldest self.old) sample }
        ensures past { self.new ≡ drop 1 self.old ++ result ∷ [] }
    {
        let echo = scaled(self.ring[self.next], feedback);
        let sample = to_sample(Fixed(i64::from(sample.0) + i64::from(echo.0)));
        self.ring[self.next] = sample;
        self.next = if self.next + 1 < DELAY {
            self.next + 1
        } else {
            0
        };
        sample
    }
}

impl Front for Echo {
    ghost use Rattle.stock_sound.specs.Echo.{echo};

    ghost meaning = { echo };

    fn activate(&mut self) {
        *self = Echo::new();
    }

    fn deactivate(&mut self) {}

    fn run<S: Sched>(&mut self, ports: &mut Ports<'_>, _sched: &mut S) {
        self.play(ports);
    }

    fn work_response(&mut self, _body: &[u8]) {}

    fn end_run(&mut self) {}
}

// A sample times a factor. One below 128 makes products of 64 bits.
fn scaled(sample: Sample, factor: Fixed) -> Sample
    ensures { result ≡ gained sample factor }
{
    match i32::try_from(factor.0) {
        Ok(small) => scaled_by_small(sample, small),
        Err(_) => gain(sample, factor),
    }
}

fn scaled_by_small(sample: Sample, factor: i32) -> Sample
    ensures { result ≡ gained sample (record { 0 = factor }) }
{
    let product = i64::from(sample.0) * i64::from(factor);
    to_sample(Fixed(product >> 24))
}
