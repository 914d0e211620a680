ghost use Rattle.std.specs.Prelude.{◌≡◌, ◌<◌, ℕ, length, IfOk};
ghost use Rattle.std.specs.Borrow.{sem};
ghost use Rattle.audio_api.specs.Sound.{AreWhole};
ghost use Rattle.audio_api.specs.Outputs.{silent_outputs, silenced, block_at, value_at};
ghost use Rattle.audio_api.specs.Lending.{LendsPlace};

use crate::Block;
use crate::block::silent_blocks;
use lv_base::{Fixed, NoMemory, Sample};
use std::alloc::Global;
use std::marker::Model;

/// What instances leave behind in a block: places for samples and places for values, which the host deals out to
/// output ports. It is used again for each block, and takes no memory then.
#[derive(Debug, Drop)]
pub struct Outs {
    blocks: Vec<Block>,
    values: Vec<Fixed>,
}

impl Model for Outs {
    ghost use Rattle.audio_api.specs.Sound.{AreWhole};
    ghost use Rattle.audio_api.specs.Outputs.{Outputs};

    ghost Value = { Outputs };

    ghost view = { λ outs. record { blocks = outs.blocks.items; values = outs.values.items } };
}

impl Outs {
    /// Places for `blocks` blocks of `block` silent frames, and for `values` values of 0.
    pub fn with_room(alloc: Global, blocks: u32, block: u32, values: u32) -> Result<Self, NoMemory>
        ensures { IfOk result (λ outs. outs ≡ silent_outputs blocks block values) }
    {
        let blocks = silent_blocks(alloc, blocks, block)?;
        let values = Vec::from_elem(alloc, Fixed(0), values as usize)?;
        Ok(Outs { blocks, values })
    }

    /// The samples at a place.
    pub fn block(&self, place: u32) -> &[Sample]
        requires { place < length self.now.blocks }
        ensures { result.now ≡ block_at self.now place }
    {
        self.blocks[place as usize].as_slice()
    }

    /// Lends the samples at a place.
    pub fn block_mut(&mut self, place: u32) -> &mut Block
        requires { place < length self.old.blocks }
        ensures* writes_back { sem 𝓛 (LendsPlace self.entry place result) }
        ensures value { result.now ≡ block_at self.old place }
    {
        &mut self.blocks[place as usize]
    }

    /// The value at a place.
    pub fn value(&self, place: u32) -> Fixed
        requires { place < length self.now.values }
        ensures { result ≡ value_at self.now place }
    {
        self.values[place as usize]
    }

    /// Makes every block silent and every value 0, as each run wants them.
    pub fn silence(&mut self)
        ensures silent { self.new ≡ silenced self.old }

        // Where all blocks have the same frames, it is then like a new one.
        ensures as_new { (frames : ℕ) → AreWhole frames self.old.blocks → self.new ≡ silent_outputs (length self.old.blocks) frames (length self.old.values) }
    {
        for block in self.blocks.iter_mut() {
            block.silence();
        }
        self.values.as_mut_slice().fill(Fixed(0));
    }
}
