ghost use Rattle.std.specs.Prelude.{◌≡◌, ◌<◌, length, IfOk};
ghost use Rattle.std.specs.Borrow.{sem};
ghost use Rattle.audio_api.specs.Inputs.{silent_inputs, samples_at, value_at, with_samples, with_value};
ghost use Rattle.audio_api.specs.Lending.{LendsInput};

use crate::Block;
use crate::block::silent_blocks;
use lv_base::{Fixed, NoMemory, Sample};
use std::alloc::Global;
use std::marker::Model;

/// What an instance is given for a block: a place for each of its ports, with samples and a value. A place is unused
/// where its port isn't an input of that kind. It is filled again for each block, and takes no memory then.
#[derive(Debug, Drop)]
pub struct Ins {
    frames: u32,
    blocks: Vec<Block>,
    values: Vec<Fixed>,
}

impl Model for Ins {
    ghost use Rattle.audio_api.specs.Inputs.{Inputs};

    ghost Value = { Inputs };

    ghost view = { λ ins. record { frames = ins.frames; blocks = ins.blocks.items; values = ins.values.items } };
}

impl Ins {
    /// Places for `count` ports, each with `block` silent frames and the value 0.
    pub fn with_ports(alloc: Global, count: u32, block: u32) -> Result<Self, NoMemory>
        ensures { IfOk result (λ ins. ins ≡ silent_inputs count block) }
    {
        let blocks = silent_blocks(alloc, count, block)?;
        let values = Vec::from_elem(alloc, Fixed(0), count as usize)?;
        Ok(Ins {
            frames: block,
            blocks,
            values,
        })
    }

    /// The samples at port `i`.
    pub fn block(&self, i: u32) -> &[Sample]
        requires { i < length self.now.blocks }
        ensures { result.now ≡ samples_at self.now i }
    {
        self.blocks[i as usize].as_slice()
    }

    /// Lends the samples at port `i`.
    pub fn block_mut(&mut self, i: u32) -> &mut Block
        requires { i < length self.old.blocks }
        ensures* writes_back { sem 𝓛 (LendsInput self.entry i result) }
        ensures value { result.now ≡ samples_at self.old i }
    {
        &mut self.blocks[i as usize]
    }

    /// Puts samples at port `i`: as many as there are frames.
    pub fn set_block(&mut self, i: u32, samples: &[Sample])
        requires there { i < length self.old.blocks }
        requires whole { length samples.now ≡ length (samples_at self.old i) }
        ensures { self.new ≡ with_samples self.old i samples.now }
    {
        self.block_mut(i).copy_from(samples);
    }

    /// The value at port `i`.
    pub fn value(&self, i: u32) -> Fixed
        requires { i < length self.now.values }
        ensures { result ≡ value_at self.now i }
    {
        self.values[i as usize]
    }

    /// Puts a value at port `i`.
    pub fn set_value(&mut self, i: u32, value: Fixed)
        requires { i < length self.old.values }
        ensures { self.new ≡ with_value self.old i value }
    {
        self.values[i as usize] = value;
    }
}
