ghost use Rattle.std.specs.Prelude.{◌≡◌, ℕ, ◌<◌, List, length, slice_get, Some, IfOk};
ghost use Rattle.graph_order.specs.Setup.{IsReady};
ghost use Rattle.graph_order.specs.declared.setup.Setup.{Setup};
ghost use Rattle.block_signals.specs.declared.inlet.Inlet.{Inlet};
ghost use Rattle.atom_core.specs.Value.{Value};
ghost use Rattle.block_signals.specs.Board.{Board, blank, block_begun, with_action};
ghost use Rattle.block_signals.specs.Inlets.{HoldsInputs};
ghost use Rattle.block_signals.specs.Lent.{IsFilled, AreReady};
ghost use Rattle.block_signals.specs.Messages.{AreBytesOf};
ghost use Rattle.block_signals.specs.Outlets.{ShowsOutputs};
ghost use Rattle.block_signals.specs.Places.{quiet_outs};
ghost use Rattle.block_signals.specs.Setting.{SetsAt};
ghost use Rattle.plug_api.specs.Ports as loan;
ghost use Rattle.session_play.specs.Patch.{message_of};
ghost use Rattle.session_play.specs.Setup.{ports_of};
ghost use Rattle.session_script.specs.declared.session.Action.{Action};

use crate::inlet::{Inlet, set};
use crate::outlets::Outlets;
use graph_order::Setup;
use lv_base::{Fixed, NoMemory};
use plug_api::{Outs, Ports};
use plugin_decl::Port;
use std::alloc::Global;

/// What the inputs of all instances are given. It is filled again for each run, and takes no memory then.
#[derive(Drop)]
pub struct Inlets {
    pub(crate) each: Vec<Inlet>,
    pub(crate) sums: Vec<i64>,
}

impl Inlets {
    /// The inlets of a setup's instances, with their values before the run, and without messages.
    pub fn new(alloc: Global, setup: &Setup) -> Result<Self, NoMemory>
        requires { IsReady setup.now }
        ensures { IfOk result (HoldsInputs setup.now blank) }
    {
        let mut each = Vec::with_capacity(alloc, setup.decls.len())?;
        for (inst, decl) in setup.decls.as_slice().iter().enumerate() {
            each.push(Inlet::new(alloc, setup, inst as u32, decl)?)?;
        }
        let sums = Vec::from_elem(alloc, 0, setup.session.block as usize)?;
        Ok(Inlets { each, sums })
    }

    /// Begins a block: the messages of the one at hand are forgotten.
    pub fn begin_block(&mut self)
        requires { (setup : Setup) × (board : Board) × IsReady setup × HoldsInputs setup board self.old }
        ensures { (setup : Setup) (board : Board) → HoldsInputs setup board self.old → HoldsInputs setup (block_begun board) self.new }
    {
        for inlet in self.each.iter_mut() {
            inlet.begin_block();
        }
    }

    /// Puts what comes to an instance's inputs before its run: the mix of sound, and the merge of events, after the messages for it.
    pub fn fill(&mut self, inst: u32, outlets: &Outlets)
        requires there { inst < length self.old.each.items }
        requires known { (setup : Setup) × (board : Board) × IsReady setup × ShowsOutputs setup board outlets.now × HoldsInputs setup board self.old }
        ensures kept { (setup : Setup) (board : Board) → IsReady setup → ShowsOutputs setup board outlets.now → HoldsInputs setup board self.old → HoldsInputs setup board self.new }
        ensures filled { (setup : Setup) (board : Board) → IsReady setup → ShowsOutputs setup board outlets.now → HoldsInputs setup board self.old
            → (inlet : Inlet) → slice_get self.new.each.items inst ≡ Some inlet → IsFilled setup board inst inlet }
    {
        let inlet = &mut self.each[inst as usize];
        inlet.fill(self.sums.as_mut_slice(), outlets);
    }

    /// Sets a value at a port of an instance, and at each other port with its symbol.
    pub fn set(&mut self, inst: u32, port: u32, value: Fixed)
        requires there { inst < length self.old.each.items }
        requires known { (setup : Setup) × (board : Board) × IsReady setup × HoldsInputs setup board self.old × (port < length (ports_of setup inst)) }
        ensures { (setup : Setup) (board : Board) (urids : List (List ℕ)) (action : Action) → IsReady setup → HoldsInputs setup board self.old
            → SetsAt setup inst port value action → HoldsInputs setup (with_action urids board action) self.new }
    {
        let inlet = &mut self.each[inst as usize];
        let symbols = inlet.symbols.as_slice();
        set(&mut inlet.ins, symbols, &symbols[port as usize], value);
    }

    /// Takes the message that an action sends to an instance, given as the bytes of its atom. It comes to its port for messages, if it has one
    /// and there is room.
    pub fn take_message(&mut self, inst: u32, atom: &[u8])
        requires there { inst < length self.old.each.items }
        requires known { (setup : Setup) × (board : Board) × HoldsInputs setup board self.old }
        requires atom { (value : Value) × AreBytesOf atom.now value }
        ensures { (setup : Setup) (board : Board) (urids : List (List ℕ)) (action : Action) (value : Value) → HoldsInputs setup board self.old
            → action.inst ≡ inst → message_of urids action.deed ≡ Some value → AreBytesOf atom.now value → HoldsInputs setup (with_action urids board action) self.new }
    {
        let inlet = &mut self.each[inst as usize];
        inlet.take(atom);
    }

    /// The ports of an instance for its run, over what its inputs are given and over its outputs of this block.
    pub fn ports<'a>(&'a self, inst: u32, ports: &'a [Port], outs: &'a mut Outs) -> Ports<'a>
        requires there { inst < length self.now.each.items }
        ensures ports { loan.ports_of result ≡ ports.now }
        ensures inputs { (inlet : Inlet) → slice_get self.now.each.items inst ≡ Some inlet → loan.ins_of result ≡ inlet.ins }
        ensures places { (inlet : Inlet) → slice_get self.now.each.items inst ≡ Some inlet → loan.places_of result ≡ inlet.of }
        ensures outputs { loan.outs_of result ≡ outs.old }
        ensures same_reference { loan.reference_of result ≡ outs.entry.ghost_name }
        ensures ready { (setup : Setup) (board : Board) (inlet : Inlet) → IsReady setup → slice_get self.now.each.items inst ≡ Some inlet
            → IsFilled setup board inst inlet → ports.now ≡ ports_of setup inst → outs.old ≡ quiet_outs setup.session.block (ports_of setup inst)
            → AreReady setup board inst result }
    {
        let inlet = &self.each[inst as usize];
        Ports::over(ports, &inlet.ins, inlet.of.as_slice(), outs)
    }
}
