//! How a cable begins.
ghost use Rattle.std.specs.Prelude.{◌≡◌, [], IfOk};
ghost use Rattle.cable_ring.specs.declared.view.View.TheVariants.{Desk};
ghost use Rattle.cable_ring.specs.Opened.{plan_with, IsTableOf, AreOpened};
ghost use Rattle.cable_ring.specs.Planned.{plan_of};
ghost use Rattle.cable_ring.specs.Rule.{IsPlan};
ghost use Rattle.cable_ring.specs.Tables.{table_of, plan_at};

use crate::cable::Cable;
use crate::layout::{Layout, Top};
use crate::pass::{Count, Pass, Place};
use crate::plays::HandOut;
use crate::view::RingSpec;
use atomic_table::{Perch, Table};
use lv_base::NoMemory;
use std::alloc::Global;
use std::mem;

// So many counts more are reserved than are used. They take 72 bytes, more than a line of 64: so no two actors' counts lie on one line, which
// the processors would take from each other at each call.
const APART: usize = 3;

// Hands out the passes of all actors, in order.
fn hand_out<M: Drop>(
    alloc: Global,
    top: &Top<M>,
    desk: &mut Place<M>,
    layout: &Layout,
) -> Result<Vec<Pass<M>>, NoMemory>
    requires table { (desk.old.table_id ≡ top.now.table_id) × IsTableOf top.now.table_id (plan_of layout.now) × (plan_of top.now.key ≡ plan_of layout.now) }
    requires limits { IsPlan (plan_of layout.now) }
    requires desk { desk.old.me ≡ (Desk (plan_of layout.now) 0 [], []) }
    ensures table { desk.new.table_id ≡ desk.old.table_id }
    ensures desk { IfOk result (λ _. desk.new.me ≡ (Desk (plan_of layout.now) layout.now.actors [], [])) }
    ensures passes { IfOk result (λ passes. AreOpened top.now.table_id (plan_of layout.now) layout.now.actors passes.items) }
{
    let mut passes = Vec::with_capacity(alloc, layout.actors as usize)?;
    let rings = layout.rings.len();
    for actor in 0..layout.actors {
        let none = Count {
            sent: 0,
            shown: 0,
            taken: 0,
        };
        let mut counts = Vec::with_capacity(alloc, rings + APART)?;
        counts.resize(rings, none)?;
        let place = top.split_seat::<HandOut>(desk);
        passes.push(Pass {
            place,
            cells: layout.cells as u64,
            left: 1 << 56,
            counts,
        })?;
    }
    Ok(passes)
}

impl<M: Drop> Cable<M> {
    /// A cable with these rings, each with so many cells, and the passes of its actors, in order. Its tickets begin at `first`.
    pub fn new(
        alloc: Global,
        first: u64,
        cells: u32,
        rings: &[RingSpec],
        actors: u32,
    ) -> Result<(Self, Vec<Pass<M>>), NoMemory>
        requires limits { IsPlan (plan_with first cells actors rings.now) }
        ensures passes { IfOk result (λ made. AreOpened (table_of made.0) (plan_with first cells actors rings.now) actors made.1.items) }
        ensures plan { IfOk result (λ made. plan_at made.0 ≡ plan_with first cells actors rings.now) }
    {
        let layout = Layout::new(alloc, first, cells, rings, actors)?;
        let mut words = Vec::from_elem(alloc, 0u64, 16 * rings.len() + 16)?;
        words[0] = first;
        let cell_count = rings.len() * cells as usize;
        let (table, mut desk) = Table::vacant(alloc, words.as_slice(), cell_count, &layout)?;
        let passes = hand_out(alloc, &table.shared, &mut desk, &layout)?;
        let perch = Perch::new(&desk, 0);
        mem::drop(perch.give(desk, 0, 2));
        Ok((
            Cable {
                table,
                desk: perch,
                layout,
                alloc,
            },
            passes,
        ))
    }
}
