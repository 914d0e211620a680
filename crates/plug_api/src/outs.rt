ghost use Rattle.std.specs.Prelude.{◌≡◌, ◌<◌, length, map, IfOk};
ghost use Rattle.std.specs.Borrow.{sem};
ghost use Rattle.plug_api.specs.Buffers.{fresh_outputs, silenced, block_at, fixed_at, forge_at, with_value, empty_forge, begun};
ghost use Rattle.plug_api.specs.Lending.{LendsBlock, LendsForge};

use crate::Block;
use crate::block::silent_blocks;
use atom_forge::Forge;
use lv_base::{Fixed, NoMemory, Sample};
use std::alloc::Global;
use std::marker::Model;

/// What instances leave behind in a block: places for samples, for values and for events, which the host deals out to output ports. It
/// is used again for each block, and takes no memory then.
#[derive(Drop)]
pub struct Outs {
    blocks: Vec<Block>,
    values: Vec<Fixed>,
    forges: Vec<Forge>,
}

impl Model for Outs {
    ghost use Rattle.plug_api.specs.Buffers.{Left};

    ghost Value = { Left };

    ghost view = { λ outs. record { blocks = outs.blocks.items; values = outs.values.items; forges = outs.forges.items } };
}

impl Outs {
    /// Places for `blocks` blocks of `block` silent frames, for `values` values of 0, and for a forge with each of these rooms.
    pub fn with_room(
        alloc: Global,
        blocks: u32,
        block: u32,
        values: u32,
        rooms: &[u32],
    ) -> Result<Self, NoMemory>
        ensures { IfOk result (λ outs. outs ≡ fresh_outputs blocks block values rooms.now) }
    {
        let blocks = silent_blocks(alloc, blocks, block)?;
        let values = Vec::from_elem(alloc, Fixed(0), values as usize)?;
        let forges = empty_forges(alloc, rooms)?;
        Ok(Outs {
            blocks,
            values,
            forges,
        })
    }

    /// The samples at a place.
    pub fn block(&self, place: u32) -> &[Sample]
        requires { place < length self.now.blocks }
        ensures { result.now ≡ block_at self.now.blocks place }
    {
        self.blocks[place as usize].as_slice()
    }

    /// Lends the samples at a place.
    pub fn block_mut(&mut self, place: u32) -> &mut Block
        requires { place < length self.old.blocks }
        ensures* writes_back { sem 𝓛 (LendsBlock self.entry place result) }
        ensures value { result.now ≡ block_at self.old.blocks place }
    {
        &mut self.blocks[place as usize]
    }

    /// The value at a place.
    pub fn value(&self, place: u32) -> Fixed
        requires { place < length self.now.values }
        ensures { result ≡ fixed_at self.now.values place }
    {
        self.values[place as usize]
    }

    /// Puts a value at a place.
    pub fn set_value(&mut self, place: u32, value: Fixed)
        requires { place < length self.old.values }
        ensures { self.new ≡ with_value self.old place value }
    {
        self.values[place as usize] = value;
    }

    /// What the forge at a place holds.
    pub fn forge(&self, place: u32) -> &Forge
        requires { place < length self.now.forges }
        ensures { result.now ≡ forge_at self.now.forges place }
    {
        &self.forges[place as usize]
    }

    /// Lends the forge at a place.
    pub fn forge_mut(&mut self, place: u32) -> &mut Forge
        requires { place < length self.old.forges }
        ensures* writes_back { sem 𝓛 (LendsForge self.entry place result) }
        ensures value { result.now ≡ forge_at self.old.forges place }
    {
        &mut self.forges[place as usize]
    }

    /// Makes every block silent, every value 0, and every forge one with an open sequence, as each run wants them.
    pub fn silence(&mut self)
        ensures { self.new ≡ silenced self.old }
    {
        for block in self.blocks.iter_mut() {
            block.silence();
        }
        self.values.as_mut_slice().fill(Fixed(0));
        for forge in self.forges.iter_mut() {
            begin_sequence(forge);
        }
    }
}

// Empties a forge and opens a sequence in it, if it has room for one.
fn begin_sequence(forge: &mut Forge)
    ensures { forge.new ≡ begun forge.old }
{
    forge.clear();
    let _ = forge.sequence();
}

fn empty_forges(alloc: Global, rooms: &[u32]) -> Result<Vec<Forge>, NoMemory>
    ensures { IfOk result (λ forges. forges.items ≡ map empty_forge rooms.now) }
{
    let mut forges = Vec::with_capacity(alloc, rooms.len())?;
    for room in rooms {
        forges.push(Forge::with_room(alloc, *room)?)?;
    }
    Ok(forges)
}
