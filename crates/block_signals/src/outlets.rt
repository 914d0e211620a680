ghost use Rattle.std.specs.Prelude.{◌≡◌, ◌<◌, length, map, slice_index_or, IfOk};
ghost use Rattle.std.specs.Borrow.{sem};
ghost use Rattle.graph_order.specs.Setup.{IsReady};
ghost use Rattle.graph_order.specs.declared.setup.Setup.{Setup};
ghost use Rattle.block_signals.specs.Board.{Board, blank, block_begun};
ghost use Rattle.block_signals.specs.Outlets.{ShowsOutputs};
ghost use Rattle.block_signals.specs.Lending.{LendsNow, now_at};
ghost use Rattle.block_signals.specs.Merging.{GivesEvents, events_heard};
ghost use Rattle.block_signals.specs.Mixing.{outs_at, heard};

use crate::messages::event_bytes;
use crate::outlet::Outlet;
use crate::source::Source;
use graph_order::Setup;
use lv_base::{NoMemory, Sample};
use plug_api::Outs;
use std::alloc::Global;

/// What the outputs of all instances gave in this block, and in the one before. It is used again for each block, and takes no memory then.
#[derive(Drop)]
pub struct Outlets {
    pub(crate) each: Vec<Outlet>,
}

impl Outlets {
    /// The outputs of a setup's instances, which gave nothing yet.
    pub fn new(alloc: Global, setup: &Setup) -> Result<Self, NoMemory>
        requires { IsReady setup.now }
        ensures { IfOk result (ShowsOutputs setup.now blank) }
    {
        let frames = setup.session.block;
        let mut each = Vec::with_capacity(alloc, setup.decls.len())?;
        for decl in setup.decls.as_slice() {
            each.push(Outlet::with_ports(alloc, decl.ports.as_slice(), frames)?)?;
        }
        Ok(Outlets { each })
    }

    /// Begins a block: what was given in the one at hand was given in the one before, and nothing was given yet.
    pub fn begin_block(&mut self)
        ensures { (setup : Setup) (board : Board) → IsReady setup → ShowsOutputs setup board self.old → ShowsOutputs setup (block_begun board) self.new }
    {
        for outlet in self.each.iter_mut() {
            outlet.begin_block();
        }
    }

    /// Lends an instance's outputs of this block to its run, which finds them quiet.
    pub fn now_mut(&mut self, inst: u32) -> &mut Outs
        requires { inst < length self.old.each.items }
        ensures* writes_back { sem 𝓛 (LendsNow self.entry inst result) }
        ensures value { result.now ≡ now_at self.old inst }
    {
        let outlet = &mut self.each[inst as usize];
        &mut outlet.now
    }

    /// What is heard at a source.
    pub(crate) fn heard(&self, source: Source) -> &[Sample]
        requires inst { source.inst < length self.now.each.items }
        requires place { source.place < length (outs_at self.now source).blocks }
        ensures { result.now ≡ heard self.now source }
    {
        self.outs_at(source).block(source.place)
    }

    /// The events of a source, as their bytes.
    pub(crate) fn events(&self, source: Source) -> &[u8]
        requires { GivesEvents self.now source }
        ensures { result.now ≡ events_heard self.now source }
    {
        event_bytes(self.outs_at(source).forge(source.place))
    }

    /// The outputs that a source is among.
    fn outs_at(&self, source: Source) -> &Outs
        requires { source.inst < length self.now.each.items }
        ensures { result.now ≡ outs_at self.now source }
    {
        let outlet = &self.each[source.inst as usize];
        if source.delayed {
            &outlet.before
        } else {
            &outlet.now
        }
    }
}
