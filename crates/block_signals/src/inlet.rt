ghost use Rattle.std.specs.Prelude.{◌≡◌, ℕ, ◌≤◌, ◌<◌, ◌++◌, ◌∷◌, true, [], if◌then◌else◌, List, length, map, slice_get, slice_index_or, Some, IfOk};
ghost use Rattle.std.specs.Str.{bytes_eq};
ghost use Rattle.graph_order.specs.Setup.{IsReady};
ghost use Rattle.plug_api.specs.Buffers.{Given, block_at, fixed_at};
ghost use Rattle.plug_api.specs.Fresh.{fresh_inputs};
ghost use Rattle.session_play.specs.Signals.{mixed};
ghost use Rattle.block_signals.specs.declared.source.Input.{Input as Kept};
ghost use Rattle.block_signals.specs.Board.{Board, blank};
ghost use Rattle.block_signals.specs.Inlets.{CanPut, with_input, IsPut, IsInlet, HasValues, HasMessages, Holds, value_set};
ghost use Rattle.block_signals.specs.Lent.{IsFilled};
ghost use Rattle.block_signals.specs.Outlets.{ShowsOutputs};
ghost use Rattle.graph_order.specs.declared.setup.Setup.{Setup};
ghost use Rattle.block_signals.specs.Messages.{AreBytesOf, KeepsFor, AreRoomy, begun_messages};
ghost use Rattle.atom_core.specs.Value.{Value};
ghost use Rattle.atom_sequence.specs.Event.{Event};
ghost use Rattle.session_play.specs.Signals.{at_start};
ghost use Rattle.plugin_decl.specs.Valid.{IsValid};
ghost use Rattle.plugin_decl.specs.declared.declaration.Port.{Port};
ghost use Rattle.session_play.specs.Setup.{ports_of};
ghost use Rattle.block_signals.specs.Mixing.{heard, IsHeard};
ghost use Rattle.std.specs.Prelude.{All};

use crate::events::merge_all;
use crate::messages::Messages;
use crate::mixing::mix;
use crate::outlet::places_of;
use crate::outlets::Outlets;
use crate::source::{Input, Source, inputs_of};
use graph_order::Setup;
use lv_base::{Fixed, Items, NoMemory, Text};
use plug_api::{Block, Ins};
use plugin_decl::{Decl, Port};
use session_script::SetLine;
use std::alloc::Global;

/// What stands ready for the runs of an instance: what its inputs are given, the places of its outputs, and the messages to it.
#[derive(Drop)]
pub struct Inlet {
    pub(crate) ins: Ins,
    pub(crate) of: Items<u32>,
    pub(crate) inputs: Items<Input>,
    pub(crate) symbols: Items<Text>,
    pub(crate) messages: Option<Messages>,
}

impl Inlet {
    /// The inlet of an instance, with its values before the run, and without messages.
    pub(crate) fn new(
        alloc: Global,
        setup: &Setup,
        inst: u32,
        decl: &Decl,
    ) -> Result<Inlet, NoMemory>
        requires ready { IsReady setup.now }
        requires valid { IsValid decl.now }
        requires ports { decl.now.ports ≡ ports_of setup.now inst }
        ensures inlet { IfOk result (IsInlet setup.now inst) }
        ensures values { IfOk result (λ inlet. HasValues setup.now blank inst inlet.ins) }
        ensures messages { IfOk result (HasMessages setup.now blank inst) }
    {
        let ports = decl.ports.as_slice();
        let inputs = inputs_of(alloc, setup, inst, ports)?;
        let of = Items::from_vec(places_of(alloc, ports)?);
        let symbols = symbols_of(alloc, ports)?;
        let messages = Messages::of(alloc, decl)?;
        let ins = first_ins(alloc, setup, inst, ports, symbols.as_slice())?;
        Ok(Inlet {
            ins,
            of,
            inputs,
            symbols,
            messages,
        })
    }

    /// Forgets the messages, since a block begins.
    pub(crate) fn begin_block(&mut self)
        requires { AreRoomy self.old.messages }
        ensures { self.new ≡ record self.old { messages = begun_messages self.old.messages } }
    {
        if let Some(messages) = &mut self.messages {
            messages.begin_block();
        }
    }

    /// Takes a message, if the instance has a port for messages.
    pub(crate) fn take(&mut self, atom: &[u8])
        requires known { (ports : List Port) × (messages : List Event) × KeepsFor ports messages self.old.messages }
        requires atom { (value : Value) × AreBytesOf atom.now value }
        ensures others { self.new ≡ record self.old { messages = self.new.messages } }
        ensures kept { (ports : List Port) (messages : List Event) (value : Value) → KeepsFor ports messages self.old.messages → AreBytesOf atom.now value
            → KeepsFor ports (messages ++ at_start value ∷ []) self.new.messages }
    {
        if let Some(messages) = &mut self.messages {
            messages.take(atom);
        }
    }

    /// Puts what comes to the inputs before a run.
    pub(crate) fn fill(&mut self, sums: &mut [i64], outlets: &Outlets)
        requires room { length sums.old ≡ self.old.ins.frames }
        requires known { (setup : Setup) × (board : Board) × (inst : ℕ) × IsReady setup × ShowsOutputs setup board outlets.now × Holds setup board inst self.old }
        ensures filled { (setup : Setup) (board : Board) (inst : ℕ) → IsReady setup → ShowsOutputs setup board outlets.now → Holds setup board inst self.old
            → IsFilled setup board inst self.new }
        ensures messages { self.new.messages ≡ self.old.messages }
    {
        fill(&mut self.ins, self.inputs.as_slice(), sums, outlets);
        merge_all(
            &mut self.ins,
            self.inputs.as_slice(),
            &self.messages,
            outlets,
        );
    }
}

/// What is given before the run: the first value of each port, or what the lines of the session set.
fn first_ins(
    alloc: Global,
    setup: &Setup,
    inst: u32,
    ports: &[Port],
    symbols: &[Text],
) -> Result<Ins, NoMemory>
    requires few { length ports.now ≤ 256 }
    requires named { symbols.now ≡ map (λ (port : Port). port.symbol) ports.now }
    ensures others { IfOk result (λ ins. ins ≡ record (fresh_inputs ports.now setup.now.session.block) { values = ins.values }) }
    ensures values { ports.now ≡ ports_of setup.now inst → IfOk result (HasValues setup.now blank inst) }
{
    let mut ins = Ins::with_ports(alloc, ports, setup.session.block)?;
    begin_values(&mut ins, ports);
    set_lines(&mut ins, symbols, setup.session.sets.as_slice(), inst);
    Ok(ins)
}

fn symbols_of(alloc: Global, ports: &[Port]) -> Result<Items<Text>, NoMemory>
    ensures { IfOk result (λ symbols. symbols ≡ map (λ (port : Port). port.symbol) ports.now) }
{
    let mut symbols = Items::new(alloc);
    for port in ports {
        symbols.push(port.symbol.clone()?)?;
    }
    Ok(symbols)
}

/// Puts the first value of each port.
fn begin_values(ins: &mut Ins, ports: &[Port])
    requires few { length ports.now ≤ 256 }
    requires there { length ins.old.values ≡ length ports.now }
    ensures { ins.new ≡ record ins.old { values = map (λ (port : Port). port.first) ports.now } }
{
    for (i, port) in ports.iter().enumerate() {
        ins.set_value(i as u32, port.first);
    }
}

/// Sets what the lines of a session set for an instance, in order.
fn set_lines(ins: &mut Ins, symbols: &[Text], sets: &[SetLine], inst: u32)
    requires few { length symbols.now ≤ 256 }
    requires there { length ins.old.values ≡ length symbols.now }
    ensures others { ins.new ≡ record ins.old { values = ins.new.values } }
    ensures count { length ins.new.values ≡ length ins.old.values }
    ensures values { (k : ℕ) → k < length symbols.now → fixed_at ins.new.values k
        ≡ value_set sets.now inst (slice_index_or symbols.now k []) (fixed_at ins.old.values k) }
{
    for line in sets {
        if line.inst == inst {
            set(ins, symbols, &line.symbol, line.value);
        }
    }
}

/// Puts at each input of sound the mix of its sources.
pub(crate) fn fill(ins: &mut Ins, inputs: &[Input], sums: &mut [i64], outlets: &Outlets)
    requires few { length inputs.now ≤ 256 }
    requires room { length sums.old ≡ ins.old.frames }
    requires can { (i : ℕ) (input : Kept) → slice_get inputs.now i ≡ Some input → CanPut ins.old.frames ins.old outlets.now i input }
    ensures others { ins.new ≡ record ins.old { blocks = ins.new.blocks } }
    ensures count { length ins.new.blocks ≡ length ins.old.blocks }
    ensures put { (i : ℕ) (input : Kept) → slice_get inputs.now i ≡ Some input → IsPut ins.old.frames ins.new outlets.now i input }
{
    for (port, input) in inputs.iter().enumerate() {
        fill_one(ins, port as u32, input, sums, outlets);
    }
}

fn fill_one(ins: &mut Ins, port: u32, input: &Input, sums: &mut [i64], outlets: &Outlets)
    requires room { length sums.old ≡ ins.old.frames }
    requires can { CanPut ins.old.frames ins.old outlets.now port input.now }
    ensures input { ins.new ≡ with_input ins.old.frames ins.old outlets.now port input.now }
    ensures room { length sums.new ≡ length sums.old }
{
    if let Input::Sound(sources) = input {
        let block = ins.block_mut(port);
        mix_block(block, sums, sources.as_slice(), outlets);
    }
}

fn mix_block(block: &mut Block, sums: &mut [i64], sources: &[Source], outlets: &Outlets)
    requires room { length sums.old ≡ length block.old }
    requires few { length sources.now ≤ 256 }
    requires heard { All (IsHeard (length block.old) outlets.now) sources.now }
    ensures mix { block.new ≡ mixed (length block.old) (map (heard outlets.now) sources.now) }
    ensures room { length sums.new ≡ length sums.old }
{
    mix(block.as_mut_slice(), sums, sources, outlets);
}

/// Sets a value at all ports with this symbol.
pub(crate) fn set(ins: &mut Ins, symbols: &[Text], symbol: &Text, value: Fixed)
    requires few { length symbols.now ≤ 256 }
    requires there { length ins.old.values ≡ length symbols.now }
    ensures others { ins.new ≡ record ins.old { values = ins.new.values } }
    ensures count { length ins.new.values ≡ length ins.old.values }
    ensures values { (k : ℕ) → k < length symbols.now → fixed_at ins.new.values k
        ≡ (if bytes_eq symbol.now (slice_index_or symbols.now k []) then value else fixed_at ins.old.values k) }
{
    for (port, other) in symbols.iter().enumerate() {
        if symbol.as_str() == other.as_str() {
            ins.set_value(port as u32, value);
        }
    }
}
