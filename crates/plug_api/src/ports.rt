ghost use Rattle.std.specs.Prelude.{◌≡◌, ◌<◌, [], true, length, drop, IsTrue};
ghost use Rattle.std.specs.Borrow.{sem};
ghost use Rattle.atom_core.specs.Answer.{IsAtom};
ghost use Rattle.plug_api.specs.Buffers.{block_at, forge_at, with_value};
ghost use Rattle.plug_api.specs.Inputs.{samples_at, value_at, events_at};
ghost use Rattle.plug_api.specs.Lending.{LendsOutput, LendsOutputForge};
ghost use Rattle.plug_api.specs.Ports.{ports_of, ins_of, places_of, outs_of, reference_of, place_of, inputs_of, IsSameLoan};
ghost use Rattle.plug_api.specs.Roles.{has_sound, has_control, has_atom, AreNumbered};

use crate::{Ins, Outs};
use atom_core::AtomView;
use atom_forge::Forge;
use lv_base::{Fixed, Sample};
use plugin_decl::Port;

/// The ports of an instance, lent for one run. An input and an output never share a buffer.
#[derive(Drop)]
pub struct Ports<'a> {
    ports: &'a [Port],
    ins: &'a Ins,
    of: &'a [u32],
    outs: &'a mut Outs,
}

impl<'a> Ports<'a> {
    /// The declared ports over these inputs and outputs. `of[i]` is the place of output port `i` in the list of its kind in `outs`;
    /// where port `i` isn't an output, nothing reads it.
    pub fn over(ports: &'a [Port], ins: &'a Ins, of: &'a [u32], outs: &'a mut Outs) -> Ports<'a>
        ensures ports { ports_of result ≡ ports.now }
        ensures inputs { ins_of result ≡ ins.now }
        ensures places { places_of result ≡ of.now }
        ensures outputs { outs_of result ≡ outs.old }
        ensures same_reference { reference_of result ≡ outs.entry.ghost_name }
    {
        Ports {
            ports,
            ins,
            of,
            outs,
        }
    }

    /// The samples of audio or CV input `i`. They don't borrow the ports, so an output may be written beside them.
    pub fn input(&self, i: u32) -> &'a [Sample]
        requires port { IsTrue (has_sound true (ports_of self.now) i) }
        requires place { i < length (ins_of self.now).blocks }
        ensures value { result.now ≡ block_at (ins_of self.now).blocks i }
        ensures signal { AreNumbered (ports_of self.now) → result.now ≡ samples_at (inputs_of self.now) i }
    {
        let ins: &'a Ins = self.ins;
        ins.block(i)
    }

    /// The samples of audio or CV output `i`, to be written.
    pub fn output(&mut self, i: u32) -> &mut [Sample]
        requires port { i < length (places_of self.old) }
        requires place { place_of self.old i < length (outs_of self.old).blocks }
        ensures* writes_back { sem 𝓛 (LendsOutput self.entry i result) }
        ensures value { result.now ≡ block_at (outs_of self.old).blocks (place_of self.old i) }
    {
        let place = self.of[i as usize];
        let outs: &mut Outs = self.outs;
        let block = outs.block_mut(place);
        block.as_mut_slice()
    }

    /// The value of control input `i`.
    pub fn value(&self, i: u32) -> Fixed
        requires port { IsTrue (has_control true (ports_of self.now) i) }
        requires place { i < length (ins_of self.now).values }
        requires numbered { AreNumbered (ports_of self.now) }
        ensures { result ≡ value_at (inputs_of self.now) i }
    {
        self.ins.value(i)
    }

    /// Sets the value of control output `i`.
    pub fn set_value(&mut self, i: u32, value: Fixed)
        requires port { i < length (places_of self.old) }
        requires place { place_of self.old i < length (outs_of self.old).values }
        ensures outputs { outs_of self.new ≡ with_value (outs_of self.old) (place_of self.old i) value }
        ensures same_loan { IsSameLoan self.old self.new }
    {
        let place = self.of[i as usize];
        self.outs.set_value(place, value);
    }

    /// The sequence of atom input `i`. It doesn't borrow the ports. Its events stand after its first 16 bytes.
    pub fn events(&self, i: u32) -> AtomView<'a>
        requires place { i < length (ins_of self.now).events }
        requires whole { (forge_at (ins_of self.now).events i).levels ≡ [] }
        requires atom { ∥ IsAtom (forge_at (ins_of self.now).events i).bytes ∥₁ }
        ensures sequence { result.bytes.now ≡ (forge_at (ins_of self.now).events i).bytes }
        ensures signal { AreNumbered (ports_of self.now) → IsTrue (has_atom true (ports_of self.now) i) → drop 16 result.bytes.now ≡ events_at (inputs_of self.now) i }
    {
        let ins: &'a Ins = self.ins;
        let forge: &'a Forge = ins.forge(i);
        forge.view()
    }

    /// The forge of atom output `i`, to which events may be written: a sequence is open in it.
    pub fn forge(&mut self, i: u32) -> &mut Forge
        requires port { i < length (places_of self.old) }
        requires place { place_of self.old i < length (outs_of self.old).forges }
        ensures* writes_back { sem 𝓛 (LendsOutputForge self.entry i result) }
        ensures value { result.now ≡ forge_at (outs_of self.old).forges (place_of self.old i) }
    {
        let place = self.of[i as usize];
        let outs: &mut Outs = self.outs;
        outs.forge_mut(place)
    }
}
