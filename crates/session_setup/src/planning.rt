ghost use Rattle.std.specs.Prelude.{◌≡◌, ◌≢◌, [], ◌∷◌, ◌++◌, length, IfOk, IfErr, OnOk};
ghost use Rattle.std.specs.List.{filter_map};
ghost use Rattle.session_script.specs.Valid.{IsValid};
ghost use Rattle.graph_order.specs.declared.fault.GraphFault.TheVariants as faults;
ghost use Rattle.session_setup.specs.Faults.{IsCause};
ghost use Rattle.session_setup.specs.Planning.{name_at, cycle_names, Plans, TellsOfGraph};

use crate::fault::SetupFault;
use graph_order::{GraphFault, Plan, order};
use lv_base::{Items, NoMemory, Text};
use plugin_decl::Decl;
use session_load::LoadFault;
use session_script::{Inst, Session};
use std::alloc::Global;

/// The plan of a session whose instances have these declarations, or what stands against it.
pub(crate) fn plan_of(alloc: Global, session: &Session, decls: &[Decl]) -> Result<Plan, SetupFault>
    requires session { IsValid session.now }
    requires decls { length decls.now ≡ length session.now.insts }
    ensures ok { IfOk result (λ plan. Plans session.now decls.now (Ok plan)) }
    ensures err { IfErr result (IsCause (Plans session.now decls.now)) }
{
    match order(alloc, session, decls) {
        Ok(plan) => Ok(plan),
        Err(fault) => Err(unplanned(alloc, session.insts.as_slice(), fault)),
    }
}

/// A fault of the graph of these instances.
fn unplanned(alloc: Global, insts: &[Inst], fault: GraphFault) -> SetupFault
    ensures { TellsOfGraph insts.now fault result }
{
    match names_in(alloc, insts, &fault) {
        Ok(names) => SetupFault::Graph { fault, names },
        Err(NoMemory) => SetupFault::Load(LoadFault::NoMemory),
    }
}

/// The names of the instances of a cycle; of other faults there are none. Want of memory answers itself.
fn names_in(alloc: Global, insts: &[Inst], fault: &GraphFault) -> Result<Items<Text>, NoMemory>
    ensures names { IfOk result (λ names. names ≡ cycle_names insts.now fault.now) }
    ensures some { OnOk result (fault.now ≢ faults.NoMemory) }
{
    let mut names = Items::new(alloc);
    match fault {
        GraphFault::Cycle(cycle) => push_names(insts, cycle.as_slice(), &mut names)?,
        GraphFault::NoMemory => return Err(NoMemory),
        _ => {}
    }
    Ok(names)
}

/// Adds the names of these instances.
fn push_names(insts: &[Inst], cycle: &[u32], names: &mut Items<Text>) -> Result<(), NoMemory>
    ensures { OnOk result (names.new ≡ names.old ++ filter_map (name_at insts.now) cycle.now) }
{
    for inst in cycle {
        push_name(insts, *inst, names)?;
    }
    Ok(())
}

/// Adds the name of an instance.
fn push_name(insts: &[Inst], inst: u32, names: &mut Items<Text>) -> Result<(), NoMemory>
    ensures { OnOk result (names.new ≡ names.old ++ filter_map (name_at insts.now) (inst ∷ [])) }
{
    match insts.get(inst as usize) {
        Some(inst) => Ok(names.push(inst.name.clone()?)?),
        None => Ok(()),
    }
}
