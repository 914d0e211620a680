ghost use Rattle.std.specs.Prelude.{◌≡◌, [], IfOk};
ghost use Rattle.cable_ring.specs.Opened.{plan_with};
ghost use Rattle.cable_ring.specs.Planned.{plan_of};

use crate::view::{RingSpec, View};
use atomic_table::{Shared, TableRule};
use lv_base::NoMemory;
use std::alloc::Global;

/// What a cable is told when it is made.
#[derive(Drop)]
pub struct Layout {
    pub first: u64,
    pub cells: u32,
    pub actors: u32,
    pub rings: Vec<RingSpec>,
}

/// The rule of the table.
pub struct Wiring;

impl<M> TableRule<Option<M>, View<M>, Layout> for Wiring {
    ghost use Rattle.std.specs.Prelude.{[]};
    ghost use Rattle.cable_ring.specs.declared.view.View.TheVariants.{Desk};
    ghost use Rattle.cable_ring.specs.Rule.{IsCable};
    ghost use Rattle.cable_ring.specs.Planned.{plan_of};

    ghost holds = { λ layout. IsCable (plan_of layout) };

    ghost first = { λ layout. Desk (plan_of layout) 0 [] };
}

pub(crate) type Top<M> = Shared<Option<M>, View<M>, Layout, Wiring>;

impl Layout {
    pub(crate) fn new(
        alloc: Global,
        first: u64,
        cells: u32,
        rings: &[RingSpec],
        actors: u32,
    ) -> Result<Self, NoMemory>
        ensures { IfOk result (λ layout. plan_of layout ≡ plan_with first cells actors rings.now) }
    {
        let mut copy = Vec::with_capacity(alloc, rings.len())?;
        copy.extend_from_slice(rings)?;
        Ok(Layout {
            first,
            cells,
            actors,
            rings: copy,
        })
    }
}
