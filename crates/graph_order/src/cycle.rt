ghost use Rattle.std.specs.Prelude.{◌≡◌, ◌+◌, ◌<◌, ◌==◌, true, false, length, replicate, IfSome, IfNone, IfOk};
ghost use Rattle.graph_order.specs.Cycles.{HasCycle, IsFirstCycle};
ghost use Rattle.graph_order.specs.Search as spec;
ghost use Rattle.graph_order.specs.Wiring.{AreWithin, feeds_some};

use crate::wiring::feeds;
use lv_base::{Items, NoMemory};
use session_script::CableLine;
use std::alloc::Global;

/// The least of the shortest cycles through the least instance that is on one.
pub(crate) fn first_cycle(
    alloc: Global,
    cables: &[CableLine],
    count: u32,
) -> Result<Items<u32>, NoMemory>
    requires within { AreWithin count cables.now }
    requires some { HasCycle cables.now }
    ensures { IfOk result (IsFirstCycle cables.now) }
{
    for inst in 0..count {
        if let Some(cycle) = cycle_through(alloc, cables, count, inst)? {
            return Ok(cycle);
        }
    }
    unreachable!()
}

/// The least of the shortest cycles through an instance.
fn cycle_through(
    alloc: Global,
    cables: &[CableLine],
    count: u32,
    inst: u32,
) -> Result<Option<Items<u32>>, NoMemory>
    requires within { AreWithin count cables.now }
    requires there { inst < count }
    ensures some { IfOk result (λ cycle. IfSome cycle (spec.IsFirstThrough cables.now inst)) }
    ensures none { IfOk result (λ cycle. IfNone cycle (spec.IsOnNone cables.now inst)) }
{
    match rows_back(alloc, cables, count, inst)? {
        Some(rows) => Ok(Some(way_back(alloc, cables, count, inst, rows.as_slice())?)),
        None => Ok(None),
    }
}

/// For each number of cables below the fewest that lead back to an instance, which instances reach it over so many.
fn rows_back(
    alloc: Global,
    cables: &[CableLine],
    count: u32,
    inst: u32,
) -> Result<Option<Items<Items<bool>>>, NoMemory>
    requires within { AreWithin count cables.now }
    requires there { inst < count }
    ensures some { IfOk result (λ rows. IfSome rows (spec.IsSearched cables.now inst count)) }
    ensures none { IfOk result (λ rows. IfNone rows (spec.IsApartBelow cables.now inst (count + 1))) }
{
    let mut rows = Items::new(alloc);
    rows.push(row_of(alloc, count, inst)?)?;
    for steps in 0..count {
        let row = sources(alloc, cables, rows.as_slice()[steps as usize].as_slice())?;
        if row.as_slice()[inst as usize] {
            return Ok(Some(rows));
        }
        rows.push(row)?;
    }
    Ok(None)
}

/// A row that marks none of `count` instances.
fn unmarked(alloc: Global, count: usize) -> Result<Items<bool>, NoMemory>
    ensures { IfOk result (λ row. row ≡ replicate count false) }
{
    let row = vec![in alloc; false; count]?;
    Ok(Items::from_vec(row))
}

/// A row that marks one instance alone.
fn row_of(alloc: Global, count: u32, inst: u32) -> Result<Items<bool>, NoMemory>
    requires { inst < count }
    ensures { IfOk result (spec.IsRowOf (λ one. one == inst) count) }
{
    let mut row = unmarked(alloc, count as usize)?;
    row.set(inst as usize, true);
    Ok(row)
}

/// The instances that feed one of those that a row marks.
fn sources(alloc: Global, cables: &[CableLine], marked: &[bool]) -> Result<Items<bool>, NoMemory>
    requires { AreWithin (length marked.now) cables.now }
    ensures { IfOk result (spec.IsRowOf (feeds_some cables.now (spec.is_marked marked.now)) (length marked.now)) }
{
    let mut row = unmarked(alloc, marked.len())?;
    for cable in cables {
        if !cable.delayed && marked[cable.target as usize] {
            row.set(cable.source as usize, true);
        }
    }
    Ok(row)
}

/// The least list that leads from an instance back to itself over as many cables as there are rows.
fn way_back(
    alloc: Global,
    cables: &[CableLine],
    count: u32,
    inst: u32,
    rows: &[Items<bool>],
) -> Result<Items<u32>, NoMemory>
    requires within { AreWithin count cables.now }
    requires searched { spec.IsSearched cables.now inst count rows.now }
    ensures { IfOk result (spec.IsLeastOf cables.now inst (length rows.now)) }
{
    let mut cycle = Items::new(alloc);
    cycle.push(inst)?;
    let mut last = inst;
    let mut steps = rows.len() - 1;
    while steps > 0 {
        last = next_on_way(cables, count, rows[steps].as_slice(), last);
        cycle.push(last)?;
        steps -= 1;
    }
    Ok(cycle)
}

/// The least instance of those that a row marks that an instance feeds.
fn next_on_way(cables: &[CableLine], count: u32, row: &[bool], from: u32) -> u32
    requires within { AreWithin count cables.now }
    requires all { length row.now ≡ count }
    requires some { feeds_some cables.now (spec.is_marked row.now) from ≡ true }
    ensures { spec.IsStep cables.now row.now from result }
{
    for inst in 0..count {
        if row[inst as usize] && feeds(cables, from, inst) {
            return inst;
        }
    }
    unreachable!()
}
