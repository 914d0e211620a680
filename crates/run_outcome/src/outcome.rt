ghost use Rattle.std.specs.Prelude.{◌≡◌, ℕ, ◌*◌, ◌++◌, List, [], length, Option, None, IfOk, OnOk};
ghost use Rattle.block_signals.specs.Board.{Board};
ghost use Rattle.block_signals.specs.Channels.{AreChannels, block_given};
ghost use Rattle.block_signals.specs.Outlets.{ShowsOutputs};
ghost use Rattle.graph_order.specs.Setup.{IsReady};
ghost use Rattle.graph_order.specs.declared.setup.Setup.{Setup as SetupValue};
ghost use Rattle.play_outcome.specs.Summary as summary;
ghost use Rattle.record_law.specs.Message.Message.{notice};
ghost use Rattle.state_store.specs.declared.prop.Prop.{Prop};
ghost use Rattle.run_outcome.specs.Outcome.{ShowOutcome, OfActions, with_known};

use block_signals::{Channels, Outlets};
use graph_order::Setup;
use lv_base::{Bytes, Items, NoMemory};
use notice_text::push_notice;
use state_store::Props;
use std::alloc::Global;
use urid_map::Urids;

/// What a run gave so far.
#[derive(Drop)]
pub struct Outcome {
    /// PCM of 16 bits, the channels side by side, of all blocks that have ended.
    pub sound: Bytes,
    /// Of each action what it saved.
    pub saved: Items<Option<Props>>,
    /// Of each action the status of its restore.
    pub statuses: Items<Option<u8>>,
    /// The lines on the notices that control took, in order.
    pub lines: Bytes,
    /// Room for the PCM of one block.
    block: Vec<u8>,
}

impl Outcome {
    /// Nothing was given yet.
    pub fn new(alloc: Global, setup: &Setup) -> Result<Self, NoMemory>
        requires { IsReady setup.now }
        ensures { IfOk result (ShowOutcome setup.now [] (λ action. None) (λ action. None) []) }
    {
        let actions = setup.session.actions.len();
        let saved = nothing(alloc, actions)?;
        let statuses = nothing(alloc, actions)?;
        let block = vec![in alloc; 0; 2 * setup.session.outs.len() * setup.session.block as usize]?;
        Ok(Outcome {
            sound: Bytes::new(alloc),
            saved,
            statuses,
            lines: Bytes::new(alloc),
            block,
        })
    }

    /// A block has ended: its PCM follows that of those before it.
    pub fn end_block(&mut self, channels: &Channels, outlets: &Outlets) -> Result<(), NoMemory>
        requires { (setup : SetupValue) × (board : Board) × IsReady setup × ShowsOutputs setup board outlets.now × AreChannels setup channels.now
            × (length self.old.block.items ≡ 2 * length setup.session.outs * setup.session.block) }
        ensures { OnOk result ((setup : SetupValue) (board : Board) (sound : List ℕ) (saved : ℕ → Option (List (ℕ × Prop))) (statuses : ℕ → Option ℕ) (lines : List ℕ)
            → IsReady setup → ShowsOutputs setup board outlets.now → AreChannels setup channels.now → ShowOutcome setup sound saved statuses lines self.old
            → ShowOutcome setup (sound ++ block_given setup board) saved statuses lines self.new) }
    {
        put_block(&mut self.block, channels, outlets);
        self.sound.push_all(self.block.as_slice())
    }

    /// An action saved these properties, in place of others. An action that isn't there saves nothing.
    pub fn save(&mut self, action: u32, props: Props)
        ensures { (setup : SetupValue) (sound : List ℕ) (saved : ℕ → Option (List (ℕ × Prop))) (statuses : ℕ → Option ℕ) (lines : List ℕ)
            → ShowOutcome setup sound saved statuses lines self.old → ShowOutcome setup sound (with_known action props saved) statuses lines self.new }
    {
        if (action as usize) < self.saved.len() {
            self.saved.set(action as usize, Some(props));
        }
    }

    /// The restore of an action answered this status.
    pub fn restore(&mut self, action: u32, status: u8)
        ensures { (setup : SetupValue) (sound : List ℕ) (saved : ℕ → Option (List (ℕ × Prop))) (statuses : ℕ → Option ℕ) (lines : List ℕ)
            → ShowOutcome setup sound saved statuses lines self.old → ShowOutcome setup sound saved (with_known action status statuses) lines self.new }
    {
        if (action as usize) < self.statuses.len() {
            self.statuses.set(action as usize, Some(status));
        }
    }

    /// Control took a notice of an instance: the bytes of a whole atom.
    pub fn hear(
        &mut self,
        alloc: Global,
        setup: &Setup,
        urids: &Urids,
        inst: u32,
        atom: &[u8],
    ) -> Result<(), NoMemory>
        ensures { OnOk result (self.new ≡ record self.old { lines = self.old.lines ++ summary.notice_line setup.now urids.now (notice inst) atom.now }) }
    {
        self.lines.push_str("notice ")?;
        self.lines.push_str(name_of(setup, inst as usize))?;
        push_notice(alloc, &mut self.lines, urids, atom)?;
        self.lines.push_str("\n")
    }
}

/// Puts the PCM of the block at hand.
fn put_block(block: &mut Vec<u8>, channels: &Channels, outlets: &Outlets)
    requires { (setup : SetupValue) × (board : Board) × IsReady setup × ShowsOutputs setup board outlets.now × AreChannels setup channels.now
        × (length block.old.items ≡ 2 * length setup.session.outs * setup.session.block) }
    ensures given { (setup : SetupValue) (board : Board) → IsReady setup → ShowsOutputs setup board outlets.now → AreChannels setup channels.now
        → block.new.items ≡ block_given setup board }
    ensures room { length block.new.items ≡ length block.old.items }
{
    channels.put(outlets, block.as_mut_slice());
}

/// Nothing of each of so many actions.
fn nothing<T: Drop>(alloc: Global, count: usize) -> Result<Items<Option<T>>, NoMemory>
    ensures { IfOk result (λ kept. (setup : SetupValue) → length setup.session.actions ≡ count → OfActions setup (λ action. None) kept) }
{
    let mut kept = Items::new(alloc);
    for _ in 0..count {
        kept.push(None)?;
    }
    Ok(kept)
}

fn name_of(setup: &Setup, inst: usize) -> &str
    ensures { result.now ≡ summary.name_of setup.now inst }
{
    match setup.session.insts.get(inst) {
        Some(it) => it.name.as_str(),
        None => "",
    }
}
