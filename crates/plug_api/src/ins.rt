ghost use Rattle.std.specs.Prelude.{◌≡◌, ◌<◌, length, map, IfOk};
ghost use Rattle.std.specs.Borrow.{sem};
ghost use Rattle.plug_api.specs.Buffers.{block_at, fixed_at, forge_at, given_block, given_value};
ghost use Rattle.plug_api.specs.Fresh.{fresh_inputs, fresh_block, fresh_forge};
ghost use Rattle.plug_api.specs.Fresh as fresh;
ghost use Rattle.plug_api.specs.Lending.{LendsInput, LendsEvents};

use crate::Block;
use atom_forge::Forge;
use lv_base::{Fixed, NoMemory, Sample};
use plugin_decl::{Port, PortKind};
use std::alloc::Global;
use std::marker::Model;

/// What an instance is given for a block: a place for each of its ports, with samples, a value and a forge. A place is unused where
/// its port isn't an input of that kind. It is filled again for each block, and takes no memory then.
#[derive(Drop)]
pub struct Ins {
    frames: u32,
    blocks: Vec<Block>,
    values: Vec<Fixed>,
    events: Vec<Forge>,
}

impl Model for Ins {
    ghost use Rattle.plug_api.specs.Buffers.{Given};

    ghost Value = { Given };

    ghost view = { λ ins. record { frames = ins.frames; blocks = ins.blocks.items; values = ins.values.items; events = ins.events.items } };
}

impl Ins {
    /// Places for these ports, each input with `block` silent frames, the value 0, or an empty forge with the port's room.
    pub fn with_ports(alloc: Global, ports: &[Port], block: u32) -> Result<Self, NoMemory>
        ensures { IfOk result (λ ins. ins ≡ fresh_inputs ports.now block) }
    {
        let blocks = fresh_blocks(alloc, ports, block)?;
        let values = Vec::from_elem(alloc, Fixed(0), ports.len())?;
        let events = fresh_forges(alloc, ports)?;
        Ok(Ins {
            frames: block,
            blocks,
            values,
            events,
        })
    }

    /// The samples at port `i`.
    pub fn block(&self, i: u32) -> &[Sample]
        requires { i < length self.now.blocks }
        ensures { result.now ≡ block_at self.now.blocks i }
    {
        self.blocks[i as usize].as_slice()
    }

    /// Lends the samples at port `i`.
    pub fn block_mut(&mut self, i: u32) -> &mut Block
        requires { i < length self.old.blocks }
        ensures* writes_back { sem 𝓛 (LendsInput self.entry i result) }
        ensures value { result.now ≡ block_at self.old.blocks i }
    {
        &mut self.blocks[i as usize]
    }

    /// Puts samples at port `i`: as many as there are frames.
    pub fn set_block(&mut self, i: u32, samples: &[Sample])
        requires there { i < length self.old.blocks }
        requires whole { length samples.now ≡ length (block_at self.old.blocks i) }
        ensures { self.new ≡ given_block self.old i samples.now }
    {
        self.block_mut(i).copy_from(samples);
    }

    /// The value at port `i`.
    pub fn value(&self, i: u32) -> Fixed
        requires { i < length self.now.values }
        ensures { result ≡ fixed_at self.now.values i }
    {
        self.values[i as usize]
    }

    /// Puts a value at port `i`.
    pub fn set_value(&mut self, i: u32, value: Fixed)
        requires { i < length self.old.values }
        ensures { self.new ≡ given_value self.old i value }
    {
        self.values[i as usize] = value;
    }

    /// What the forge at port `i` holds.
    pub fn forge(&self, i: u32) -> &Forge
        requires { i < length self.now.events }
        ensures { result.now ≡ forge_at self.now.events i }
    {
        &self.events[i as usize]
    }

    /// Lends the forge at port `i`.
    pub fn forge_mut(&mut self, i: u32) -> &mut Forge
        requires { i < length self.old.events }
        ensures* writes_back { sem 𝓛 (LendsEvents self.entry i result) }
        ensures value { result.now ≡ forge_at self.old.events i }
    {
        &mut self.events[i as usize]
    }
}

fn fresh_blocks(alloc: Global, ports: &[Port], frames: u32) -> Result<Vec<Block>, NoMemory>
    ensures { IfOk result (λ blocks. blocks.items ≡ map (fresh_block frames) ports.now) }
{
    let mut blocks = Vec::with_capacity(alloc, ports.len())?;
    for port in ports {
        blocks.push(Block::silent(alloc, input_frames(port, frames))?)?;
    }
    Ok(blocks)
}

fn fresh_forges(alloc: Global, ports: &[Port]) -> Result<Vec<Forge>, NoMemory>
    ensures { IfOk result (λ forges. forges.items ≡ map fresh_forge ports.now) }
{
    let mut forges = Vec::with_capacity(alloc, ports.len())?;
    for port in ports {
        forges.push(Forge::with_room(alloc, input_room(port))?)?;
    }
    Ok(forges)
}

// How many frames there are at a port: none where it isn't an input of sound.
fn input_frames(port: &Port, frames: u32) -> u32
    ensures { result ≡ fresh.input_frames port.now frames }
{
    match port.kind {
        PortKind::Audio | PortKind::Cv if port.input => frames,
        _ => 0,
    }
}

// For how many bytes there is room at a port: none where it isn't an input of atoms.
fn input_room(port: &Port) -> u32
    ensures { result ≡ fresh.input_room port.now }
{
    match port.kind {
        PortKind::Atom if port.input => port.room,
        _ => 0,
    }
}
