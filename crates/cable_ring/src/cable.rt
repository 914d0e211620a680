ghost use Rattle.std.specs.Prelude.{◌≡◌, []};
ghost use Rattle.cable_ring.specs.declared.view.View.TheVariants.{Desk};
ghost use Rattle.cable_ring.specs.Opened.{IsTableOf};
ghost use Rattle.cable_ring.specs.Planned.{plan_of};
ghost use Rattle.cable_ring.specs.Rule.{IsPlan};

use crate::layout::{Layout, Wiring};
use crate::view::View;
use atomic_table::{Perch, Table};
use std::alloc::Global;

/// All rings of a run, over one table. Threads share it, each with the passes of its actors.
#[derive(Drop)]
pub struct Cable<M: Drop> {
    pub(crate) table: Table<Option<M>, View<M>, Layout, Wiring, Global>,
    // The seat that gathers what all actors did rests here until the cable is closed: threads share a cable, and a seat can't be shared.
    pub(crate) desk: Perch<Option<M>, View<M>>,
    pub(crate) layout: Layout,
    pub(crate) alloc: Global,
    ghost ruled: { plan_of table.shared.key ≡ plan_of layout },
    ghost planned: { IsPlan (plan_of layout) },
    ghost sized: { IsTableOf table.shared.table_id (plan_of layout) },
    ghost at_desk: { (desk.table_id ≡ table.shared.table_id) × (desk.view ≡ Desk (plan_of layout) layout.actors []) },
}
