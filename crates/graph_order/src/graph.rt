ghost use Rattle.std.specs.Prelude.{◌≡◌, ℕ, List, length, IfOk, IfErr};
ghost use Rattle.plugin_decl.specs.declared.declaration.Decl.{Decl};
ghost use Rattle.session_script.specs.declared.session.Session.{Session};
ghost use Rattle.session_script.specs.Valid.{IsValid};
ghost use Rattle.graph_order.specs.declared.fault.GraphFault.{GraphFault};
ghost use Rattle.graph_order.specs.declared.plan.Plan.{Plan};
ghost use Rattle.graph_order.specs.Answer.{IsPlanOf, IsFirstFault, HasAnswer, IsCause, IsPlanOrNoMemory, IsFaultOrNoMemory, Wires};
ghost use Rattle.graph_order.specs.Plans.{IsLawful};
ghost use Rattle.graph_order.specs.Wiring.{AreWithin};

use crate::cycle::first_cycle;
use crate::fault::GraphFault;
use crate::lines::first_broken;
use crate::plan::{Plan, plan_of};
use plugin_decl::Decl;
use session_script::{CableLine, Session};
use std::alloc::Global;

/// The plan of a session whose instances have these declarations, or why there is none: the first line that breaks a rule, or a
/// cycle.
///
/// The plan places, again and again, the least instance whose sources without delay have their place. See [`GraphFault`] for the
/// rules and the cycle.
pub fn order(alloc: Global, session: &Session, decls: &[Decl]) -> Result<Plan, GraphFault>
    requires session { IsValid session.now }
    requires decls { length decls.now ≡ length session.now.insts }
    ensures plan { IfOk result (IsPlanOf session.now decls.now) }
    ensures lawful { IfOk result (IsLawful session.now.cables (length session.now.insts)) }
    ensures err { IfErr result (IsCause session.now decls.now) }

    // Every session is answered: the only other answer is that memory was refused.
    ensures planned { (plan : Plan) → IsPlanOf session.now decls.now plan → IsPlanOrNoMemory plan result }
    ensures refused { (fault : GraphFault) → IsFirstFault session.now decls.now fault → IsFaultOrNoMemory fault result }
{
    if let Some(broken) = first_broken(session, decls) {
        return Err(broken.fault());
    }
    wire(alloc, session.cables.as_slice(), session.insts.len() as u32)
}

/// The plan of some cables between `count` instances, or the cycle that stands against it.
fn wire(alloc: Global, cables: &[CableLine], count: u32) -> Result<Plan, GraphFault>
    requires { AreWithin count cables.now }
    ensures { Wires cables.now count result }
{
    match plan_of(alloc, cables, count)? {
        Some(plan) => Ok(plan),
        None => Err(GraphFault::Cycle(first_cycle(alloc, cables, count)?)),
    }
}

/// A law, and no step of a program: a session has one answer.
pub fn one_answer()
    ensures plan { (session : Session) (decls : List Decl) (a b : Plan) → IsPlanOf session decls a → IsPlanOf session decls b → a ≡ b }
    ensures fault { (session : Session) (decls : List Decl) (a b : GraphFault) → IsFirstFault session decls a → IsFirstFault session decls b → a ≡ b }
    ensures not_both { (session : Session) (decls : List Decl) (plan : Plan) (fault : GraphFault) → IsValid session → IsPlanOf session decls plan → ¬ IsFirstFault session decls fault }
{}

/// A law, and no step of a program: a session has an answer.
pub fn some_answer()
    ensures { (session : Session) (decls : List Decl) → IsValid session → HasAnswer session decls }
{}
