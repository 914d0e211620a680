ghost use Rattle.std.specs.Prelude.{◌≡◌, ◌<◌, [], ◌∷◌, ◌++◌, length, replicate, slice_set, IfSome, IfNone, IfOk, OnOk};
ghost use Rattle.std.specs.List.{list_any};
ghost use Rattle.graph_order.specs.Cycles.{HasCycle};
ghost use Rattle.graph_order.specs.Plans as spec;
ghost use Rattle.graph_order.specs.Wiring.{AreWithin};

use lv_base::{Items, NoMemory};
use session_script::CableLine;
use std::alloc::Global;

/// The order in which the instances of a session run within a block.
#[derive(Drop)]
pub struct Plan {
    /// The instances, each once. Each stands after those that feed it by cables without delay.
    pub order: Items<u32>,
    /// The place of each instance in that order.
    pub place: Items<u32>,
}

/// The plan of some cables between `count` instances: again and again the least instance whose sources have their place. None where
/// the cables lead in a circle.
pub(crate) fn plan_of(
    alloc: Global,
    cables: &[CableLine],
    count: u32,
) -> Result<Option<Plan>, NoMemory>
    requires { AreWithin count cables.now }
    ensures plan { IfOk result (λ plan. IfSome plan (spec.IsPlanOf cables.now count)) }
    ensures none { IfOk result (λ plan. IfNone plan (HasCycle cables.now)) }
{
    let mut plan = Plan::new(alloc, count)?;
    for place in 0..count {
        match plan.next(cables, count) {
            Some(inst) => plan.put(inst, place)?,
            None => return Ok(None),
        }
    }
    Ok(Some(plan))
}

impl Plan {
    /// None of `count` instances has its place yet.
    fn new(alloc: Global, count: u32) -> Result<Plan, NoMemory>
        ensures order { IfOk result (λ plan. plan.order ≡ []) }
        ensures place { IfOk result (λ plan. plan.place ≡ replicate count count) }
    {
        let place = vec![in alloc; count; count as usize]?;
        Ok(Plan {
            order: Items::new(alloc),
            place: Items::from_vec(place),
        })
    }

    /// Puts an instance at the next place.
    fn put(&mut self, inst: u32, place: u32) -> Result<(), NoMemory>
        requires { inst < length self.old.place }
        ensures order { OnOk result (self.new.order ≡ self.old.order ++ inst ∷ []) }
        ensures place { OnOk result (self.new.place ≡ slice_set self.old.place inst place) }
    {
        self.order.push(inst)?;
        self.place.set(inst as usize, place);
        Ok(())
    }

    /// The least instance that is ready.
    fn next(&self, cables: &[CableLine], count: u32) -> Option<u32>
        requires { spec.IsMarking self.now }
        ensures some { IfSome result (spec.IsNext cables.now count self.now.order) }
        ensures none { IfNone result (spec.IsStuck cables.now count self.now.order) }
    {
        for inst in 0..count {
            if self.is_ready(cables, inst) {
                return Some(inst);
            }
        }
        None
    }

    /// Whether an instance has no place yet, and all that feed it have theirs.
    #[tactic(auto, unfolding(crate::specs::Plans::is_ready))]
    fn is_ready(&self, cables: &[CableLine], inst: u32) -> bool
        requires { spec.IsMarking self.now }
        ensures { result ≡ spec.is_ready cables.now self.now.order inst }
    {
        !self.is_placed(inst) && !self.is_waiting(cables, inst)
    }

    /// Whether a cable without delay leads to an instance from one without a place.
    fn is_waiting(&self, cables: &[CableLine], inst: u32) -> bool
        requires { spec.IsMarking self.now }
        ensures { result ≡ list_any (spec.keeps_waiting self.now.order inst) cables.now }
    {
        cables.iter().any(|cable| self.keeps_waiting(inst, cable))
    }

    fn keeps_waiting(&self, inst: u32, cable: &CableLine) -> bool
        requires { spec.IsMarking self.now }
        ensures { result ≡ spec.keeps_waiting self.now.order inst cable.now }
    {
        !cable.delayed && cable.target == inst && !self.is_placed(cable.source)
    }

    fn is_placed(&self, inst: u32) -> bool
        requires { spec.IsMarking self.now }
        ensures { result ≡ spec.is_placed self.now.order inst }
    {
        let place = self.place.as_slice();
        (inst as usize) < place.len() && (place[inst as usize] as usize) < place.len()
    }
}
