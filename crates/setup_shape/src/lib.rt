//! What the rules of a record need to know of a setup.
#![tactic(auto)]

ghost use Rattle.std.specs.Prelude.{◌≡◌, ◌<◌, is_some, length, map, IfOk};
ghost use Rattle.graph_order.specs.Setup.{IsReady};
ghost use Rattle.record_terms.specs.Session.{IsSession};
ghost use Rattle.session_play.specs.SessionShape as shapes;
ghost use Rattle.session_play.specs.Setup.{reply_port};
ghost use Rattle.session_play.specs.SessionShape.{insts_from, inst_from, action_from, kind_of, works, is_safe, worker_for};

use graph_order::Setup;
use lv_base::{Items, NoMemory};
use plugin_decl::reply_port;
use record_law::{ActionKind, Shape, ShapeAction, ShapeInst};
use session_script::{Action, Deed, Inst};
use std::alloc::Global;

/// The shape of a setup: its numbers, its plan, and what its instances declare and its actions do.
pub fn shape_of(alloc: Global, setup: &Setup) -> Result<Shape, NoMemory>
    requires { IsReady setup.now }
    ensures shape { IfOk result (λ shape. shape ≡ shapes.shape_of setup.now) }
    ensures session { IfOk result IsSession }
{
    let plan = order_of(alloc, setup)?;
    let insts = insts_of(alloc, setup)?;
    let actions = actions_of(alloc, setup)?;
    Ok(Shape {
        blocks: setup.session.blocks,
        cells: setup.session.cells,
        workers: setup.session.workers,
        plan,
        insts,
        actions,
    })
}

fn order_of(alloc: Global, setup: &Setup) -> Result<Items<u32>, NoMemory>
    ensures { IfOk result (λ order. order ≡ setup.now.plan.order) }
{
    let mut order = Items::new(alloc);
    for inst in setup.plan.order.as_slice() {
        order.push(*inst)?;
    }
    Ok(order)
}

fn insts_of(alloc: Global, setup: &Setup) -> Result<Items<ShapeInst>, NoMemory>
    requires { IsReady setup.now }
    ensures { IfOk result (λ insts. insts ≡ insts_from setup.now 0 setup.now.session.insts) }
{
    let mut insts = Items::new(alloc);
    let mut later = setup.session.insts.as_slice();
    let mut inst = 0;
    while let Some((it, rest)) = later.split_first() {
        insts.push(inst_of(setup, inst, it))?;
        later = rest;
        inst += 1;
    }
    Ok(insts)
}

fn inst_of(setup: &Setup, inst: u32, it: &Inst) -> ShapeInst
    requires ready { IsReady setup.now }
    requires within { inst < length setup.now.session.insts }
    ensures { result ≡ inst_from setup.now inst it.now }
{
    ShapeInst {
        worker: worker_for(setup, inst, it.worker),
        works: works(setup, inst),
        replies: replies(setup, inst),
    }
}

/// The worker that its line names, else the workers in turn.
fn worker_for(setup: &Setup, inst: u32, named: Option<u32>) -> u32
    requires ready { IsReady setup.now }
    requires within { inst < length setup.now.session.insts }
    ensures { result ≡ worker_for setup.now inst named }
{
    match named {
        Some(worker) => worker,
        None => inst % setup.session.workers + 1,
    }
}

/// It declares that it schedules work.
fn works(setup: &Setup, inst: u32) -> bool
    ensures { result ≡ works setup.now inst }
{
    match setup.decls.as_slice().get(inst as usize) {
        Some(decl) => decl.worker,
        None => false,
    }
}

/// It declares a port on which it answers patch messages.
fn replies(setup: &Setup, inst: u32) -> bool
    ensures { result ≡ is_some (reply_port setup.now inst) }
{
    match setup.decls.as_slice().get(inst as usize) {
        Some(decl) => reply_port(decl).is_some(),
        None => false,
    }
}

/// Its state can be restored while it runs.
fn is_safe(setup: &Setup, inst: u32) -> bool
    ensures { result ≡ is_safe setup.now inst }
{
    match setup.decls.as_slice().get(inst as usize) {
        Some(decl) => decl.safe,
        None => false,
    }
}

fn actions_of(alloc: Global, setup: &Setup) -> Result<Items<ShapeAction>, NoMemory>
    ensures { IfOk result (λ actions. actions ≡ map (action_from setup.now) setup.now.session.actions) }
{
    let mut actions = Items::new(alloc);
    for action in setup.session.actions.as_slice() {
        actions.push(action_of(setup, action))?;
    }
    Ok(actions)
}

fn action_of(setup: &Setup, action: &Action) -> ShapeAction
    ensures { result ≡ action_from setup.now action.now }
{
    let safe = is_safe(setup, action.inst);
    ShapeAction {
        block: action.block,
        kind: kind_of(safe, &action.deed),
        inst: action.inst,
    }
}

fn kind_of(safe: bool, deed: &Deed) -> ActionKind
    ensures { result ≡ kind_of safe deed.now }
{
    match deed {
        Deed::Set { .. } => ActionKind::Set,
        Deed::PatchFixed { .. } | Deed::PatchInt { .. } | Deed::PatchGet { .. } => {
            ActionKind::Patch
        }
        Deed::Save => ActionKind::Save,
        Deed::Restore { .. } if safe => ActionKind::RestoreSafe,
        Deed::Restore { .. } => ActionKind::Restore,
    }
}
