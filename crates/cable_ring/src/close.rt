//! How a cable ends.
ghost use Rattle.std.specs.Prelude.{◌≡◌, ℕ, ◌+◌, ◌*◌, ◌%◌, ◌^◌, ◌<◌, ◌≤◌, ◌++◌, false, List, [], map, length, vec_len, option_to_list, slice_index_or, vec_capacity, IfOk, IfErr, All};
ghost use mathlib.Core.Option.{some};
ghost use lib.ListN.{get_elem?};
ghost use Rattle.std.specs.Mem.Slots.{slots_items, slots_filled, slots_len, IsFull};
ghost use Rattle.std.specs.Mem.Slots.Ownership.{Filled};
ghost use Rattle.cable_ring.specs.declared.view.View.TheVariants.{Desk};
ghost use Rattle.cable_ring.specs.Closed.{AreAllPasses, traces_of, AreLeft, IsKept};
ghost use Rattle.cable_ring.specs.Emptied.{found_in, IsEmptied, IsFoundAt};
ghost use Rattle.cable_ring.specs.Passes.{pass_at, trace_at, IsResting};
ghost use Rattle.cable_ring.specs.Planned.{plan_of};
ghost use Rattle.cable_ring.specs.Tables.{table_of, plan_at};

use crate::cable::Cable;
use crate::calls::slot_of;
use crate::layout::Top;
use crate::pass::{Pass, Place};
use crate::plays::Gather;
use atomic_table::Closed;
use lv_base::NoMemory;
use std::alloc::Global;
use std::mem;

/// What a closed cable leaves: of each ring the messages that were sent and not taken, in order, and the next ticket.
#[derive(Drop)]
pub struct Left<M> {
    pub rings: Vec<Vec<M>>,
    pub next: u64,
}

impl<M> Pass<M> {
    fn into_place(self) -> Place<M>
        ensures { IsResting result × (pass_at result ≡ self) }
    {
        let Pass {
            place,
            cells: _,
            left: _,
            counts,
        } = self;
        mem::drop(counts);
        place
    }
}

// The desk takes in what all actors did, in order.
fn gather<M: Drop>(top: &Top<M>, desk: &mut Place<M>, passes: Vec<Pass<M>>)
    requires table { (desk.old.table_id ≡ top.now.table_id) × (0 < top.now.table_id.words) }
    requires desk { desk.old.me ≡ (Desk (plan_of top.now.key) (plan_of top.now.key).actors [], []) }
    requires passes { AreAllPasses top.now.table_id (plan_of top.now.key) passes.items }
    ensures table { desk.new.table_id ≡ desk.old.table_id }
    ensures desk { desk.new.me ≡ (Desk (plan_of top.now.key) (plan_of top.now.key).actors (map trace_at passes.items), []) }
{
    for pass in passes {
        top.join_seat::<Gather>(desk, pass.into_place());
    }
}

// An empty row for each ring, with room for as many messages as the ring has cells.
fn with_room<M: Drop>(alloc: Global, count: usize, cells: u64) -> Result<Vec<Vec<M>>, NoMemory>
    ensures { IfOk result (λ rows. (length rows.items ≡ count) × All (λ row. (row.items ≡ []) × (cells ≤ vec_capacity row)) rows.items) }
{
    let mut rows = Vec::with_capacity(alloc, count)?;
    for ring in 0..count {
        let _ = ring;
        rows.push(Vec::with_capacity(alloc, cells as usize)?)?;
    }
    Ok(rows)
}

// Puts the message of a cell, where it has one, at the end of a row.
fn put_found<M: Drop>(row: &mut Vec<M>, found: Option<M>)
    requires { vec_len row.old < vec_capacity row.old }
    ensures items { row.new.items ≡ row.old.items ++ option_to_list found }
    ensures room { (vec_len row.new ≤ vec_len row.old + 1) × (vec_capacity row.old ≤ vec_capacity row.new) }
{
    if let Some(message) = found {
        match row.push(message) {
            Ok(()) => {}
            Err(_) => unreachable!(),
        }
    }
}

// Moves the messages out of a ring's cells, in order from the head on.
fn empty_ring<M: Drop>(
    closed: &mut Closed<Option<M>, Global>,
    cells: u64,
    ring: u32,
    head: u64,
    row: &mut Vec<M>,
)
    requires cells { (0 < cells) × (cells ≤ 64) × (ring * cells + cells ≤ slots_len closed.old.slots) }
    requires filled { Filled (slots_filled closed.old.slots) (ring * cells) (ring * cells + cells) }
    requires room { (row.old.items ≡ []) × (cells ≤ vec_capacity row.old) }
    ensures row { row.new.items ≡ found_in (slots_items closed.old.slots) cells ring (head % cells) cells }
    ensures emptied { IsEmptied cells ring (slots_filled closed.old.slots) (slots_filled closed.new.slots) }
    ensures same { (slots_items closed.new.slots ≡ slots_items closed.old.slots) × (slots_len closed.new.slots ≡ slots_len closed.old.slots) × (closed.new.words ≡ closed.old.words) }
{
    let first = head % cells;
    for number in 0..cells {
        let slot = slot_of(cells, ring, first + number);
        put_found(row, closed.take(slot));
    }
}

// Moves the messages out of the cells of all rings.
fn empty_all<M: Drop>(
    closed: &mut Closed<Option<M>, Global>,
    cells: u64,
    rings: u32,
    rows: &mut Vec<Vec<M>>,
)
    requires cells { (0 < cells) × (cells ≤ 64) × (rings ≡ length rows.old.items) }
    requires words { IsFull closed.old.words × (slots_len closed.old.words ≡ 16 * rings + 16) }
    requires slots { IsFull closed.old.slots × (slots_len closed.old.slots ≡ rings * cells) }
    requires room { All (λ row. (row.items ≡ []) × (cells ≤ vec_capacity row)) rows.old.items }
    ensures count { length rows.new.items ≡ rings }
    ensures rows { (ring : ℕ) (row : List M) → get_elem? (map (λ v. v.items) rows.new.items) ring ≡ some row → IsFoundAt (slots_items closed.old.words) (slots_items closed.old.slots) cells ring row }
    ensures emptied { (place : ℕ) → place < slots_len closed.new.slots → slice_index_or (slots_filled closed.new.slots) place false ≡ false }
{
    for ring in 0..rings {
        let at = ring as usize;
        let head = closed.word(16 * at + 16);
        empty_ring(closed, cells, ring, head, &mut rows[at]);
    }
}

impl<M: Drop> Cable<M> {
    /// Closes the cable with the passes of all its actors, in order: of each ring the messages that were sent and not taken, and the next
    /// ticket. Where there is no memory, all is handed back.
    pub fn close(self, passes: Vec<Pass<M>>) -> Result<Left<M>, (NoMemory, Self, Vec<Pass<M>>)>
        requires { AreAllPasses (table_of self) (plan_at self) passes.items }
        ensures left { IfOk result (λ left. AreLeft (plan_at self) (traces_of passes.items) (map (λ row. row.items) left.rings.items)) }
        ensures next { IfOk result (λ left. left.next < 2 ^ 61) }
        ensures kept { IfOk result (λ left. IsKept (plan_at self) left.next (traces_of passes.items)) }
        ensures refused { IfErr result (λ back. (back.1 ≡ self) × (back.2 ≡ passes)) }
    {
        let count = self.layout.rings.len();
        let cells = self.layout.cells as u64;
        let Ok(mut rings) = with_room(self.alloc, count, cells) else {
            return Err((NoMemory, self, passes));
        };
        let Some(mut desk) = self.desk.take(0).1 else {
            return Err((NoMemory, self, passes));
        };
        let Cable {
            table,
            desk: perch,
            layout,
            alloc: _,
        } = self;
        mem::drop(perch);
        mem::drop(layout);
        gather(&table.shared, &mut desk, passes);
        let mut closed = table.close_with(desk);
        let next = closed.word(0);
        empty_all(&mut closed, cells, count as u32, &mut rings);
        closed.free();
        Ok(Left { rings, next })
    }
}
