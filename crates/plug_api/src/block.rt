ghost use Rattle.std.specs.Prelude.{◌≡◌, length, replicate, IfOk};
ghost use Rattle.std.specs.Borrow.{sem};
ghost use Rattle.plug_api.specs.Sound.{silence, hushed};
ghost use Rattle.plug_api.specs.Lending.{LendsSamples};

use lv_base::{NoMemory, Sample};
use std::alloc::Global;
use std::marker::Model;

const SILENT: Sample = Sample(0);

/// The samples of one port in one block of frames. Contracts see the list.
#[derive(Debug, Drop)]
pub struct Block {
    samples: Vec<Sample>,
}

impl Model for Block {
    ghost use Rattle.std.specs.Prelude.{List};
    ghost use Rattle.lv_base.specs.declared.number.Sample.{Sample};

    ghost Value = { List Sample };

    ghost view = { λ block. block.samples.items };
}

impl Block {
    /// A block of so many silent frames.
    pub fn silent(alloc: Global, frames: u32) -> Result<Self, NoMemory>
        ensures { IfOk result (λ block. block ≡ silence frames) }
    {
        let samples = Vec::from_elem(alloc, SILENT, frames as usize)?;
        Ok(Block { samples })
    }

    pub fn as_slice(&self) -> &[Sample]
        ensures { result.now ≡ self.now }
    {
        self.samples.as_slice()
    }

    pub fn as_mut_slice(&mut self) -> &mut [Sample]
        ensures* writes_back { sem 𝓛 (LendsSamples self.entry result) }
        ensures value { result.now ≡ self.old }
    {
        self.samples.as_mut_slice()
    }

    /// Makes every frame silent.
    pub fn silence(&mut self)
        ensures { self.new ≡ hushed self.old }
    {
        self.as_mut_slice().fill(SILENT);
    }

    /// Takes over as many samples as the block has frames.
    pub fn copy_from(&mut self, samples: &[Sample])
        requires { length samples.now ≡ length self.old }
        ensures { self.new ≡ samples.now }
    {
        self.as_mut_slice().copy_from_slice(samples);
    }
}

/// So many silent blocks.
pub(crate) fn silent_blocks(alloc: Global, count: u32, frames: u32) -> Result<Vec<Block>, NoMemory>
    ensures { IfOk result (λ blocks. blocks.items ≡ replicate count (silence frames)) }
{
    let mut blocks = Vec::with_capacity(alloc, count as usize)?;
    for i in 0..count {
        blocks.push(Block::silent(alloc, frames)?)?;
    }
    Ok(blocks)
}
