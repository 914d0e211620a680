ghost use Rattle.std.specs.Prelude.{◌≡◌, ◌<◌, length};
ghost use Rattle.std.specs.Borrow.{sem};
ghost use Rattle.audio_api.specs.Inputs.{samples_at, value_at};
ghost use Rattle.audio_api.specs.Ports.{inputs_of, places_of, outputs_of, reference_of, place_of, block_of};
ghost use Rattle.audio_api.specs.Lending.{LendsOutput};

use crate::{Ins, Outs};
use lv_base::{Fixed, Sample};

/// The ports of an instance, lent for one run. An input and an output never share a block.
#[derive(Drop)]
pub struct Ports<'a> {
    ins: &'a Ins,
    of: &'a [u32],
    outs: &'a mut Outs,
}

impl<'a> Ports<'a> {
    /// The ports over these inputs and outputs. `of[i]` is the place of output port `i` in `outs`; where port `i` isn't
    /// an output, nothing reads it.
    pub fn over(ins: &'a Ins, of: &'a [u32], outs: &'a mut Outs) -> Ports<'a>
        ensures inputs { inputs_of result ≡ ins.now }
        ensures places { places_of result ≡ of.now }
        ensures outputs { outputs_of result ≡ outs.old }
        ensures same_reference { reference_of result ≡ outs.entry.ghost_name }
    {
        Ports { ins, of, outs }
    }

    /// The samples of audio input `i`. They don't borrow the ports, so an output may be written beside them.
    pub fn input(&self, i: u32) -> &'a [Sample]
        requires { i < length (inputs_of self.now).blocks }
        ensures { result.now ≡ samples_at (inputs_of self.now) i }
    {
        let ins: &'a Ins = self.ins;
        ins.block(i)
    }

    /// The samples of audio output `i`, to be written.
    pub fn output(&mut self, i: u32) -> &mut [Sample]
        requires port { i < length (places_of self.old) }
        requires place { place_of self.old i < length (outputs_of self.old).blocks }
        ensures* writes_back { sem 𝓛 (LendsOutput self.entry i result) }
        ensures value { result.now ≡ block_of self.old i }
    {
        let place = self.of[i as usize];
        let outs: &mut Outs = self.outs;
        let block = outs.block_mut(place);
        block.as_mut_slice()
    }

    /// The value of control input `i`.
    pub fn value(&self, i: u32) -> Fixed
        requires { i < length (inputs_of self.now).values }
        ensures { result ≡ value_at (inputs_of self.now) i }
    {
        self.ins.value(i)
    }
}
