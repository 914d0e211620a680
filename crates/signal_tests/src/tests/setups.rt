//! Sessions of amplifiers.
ghost use Rattle.std.specs.Prelude.{◌≡◌, length, All, IfOk};
ghost use Rattle.graph_order.specs.Answer.{IsPlanOf};
ghost use Rattle.graph_order.specs.Setup.{IsReady};
ghost use Rattle.signal_tests.specs.Amplifier.{AreThree};
ghost use Rattle.plugin_decl.specs.Valid as decl;
ghost use Rattle.session_script.specs.Valid.{IsValid};

use graph_order::{Plan, Setup, order};
use lv_base::{Fixed, Items, NoMemory, Text};
use plugin_decl::{Decl, Port, PortKind};
use session_script::{Session, read};
use std::alloc::Global;
use std::test::Fail;

/// The setup of a script whose instances are all amplifiers: port 0 is the gain, port 1 the input, port 2 the output.
pub fn setup(alloc: Global, script: &[u8]) -> Result<Setup, Fail>
    ensures { IfOk result IsReady }
{
    let session = session(alloc, script)?;
    let decls = decls(alloc, session.insts.len())?;
    planned(alloc, session, decls)
}

/// A session with these declarations, if there is a plan of it.
pub fn planned(alloc: Global, session: Session, decls: Items<Decl>) -> Result<Setup, Fail>
    requires session { IsValid session }
    requires decls { All decl.IsValid decls }
    ensures ready { IfOk result IsReady }
    ensures same { IfOk result (λ setup. setup.decls ≡ decls) }
{
    if decls.len() != session.insts.len() {
        return Err(Fail::from("no declarations"));
    }
    let plan = plan(alloc, &session, decls.as_slice())?;
    Ok(Setup {
        session,
        decls,
        plan,
        states: Items::new(alloc),
    })
}

pub fn session(alloc: Global, script: &[u8]) -> Result<Session, Fail>
    ensures { IfOk result IsValid }
{
    if script.len() >= 4_294_967_296 {
        return Err(Fail::from("too long"));
    }
    Ok(read(alloc, script)?)
}

fn plan(alloc: Global, session: &Session, decls: &[Decl]) -> Result<Plan, Fail>
    requires session { IsValid session.now }
    requires decls { length decls.now ≡ length session.now.insts }
    ensures { IfOk result (IsPlanOf session.now decls.now) }
{
    match order(alloc, session, decls) {
        Ok(plan) => Ok(plan),
        Err(_) => Err(Fail::from("no plan")),
    }
}

fn decls(alloc: Global, count: usize) -> Result<Items<Decl>, NoMemory>
    ensures { IfOk result (All decl.IsValid) }
{
    let mut decls = Items::new(alloc);
    for _ in 0..count {
        decls.push(amplifier(alloc)?)?;
    }
    Ok(decls)
}

#[tactic(auto, using(crate::proofs::Three::three_valid))]
fn amplifier(alloc: Global) -> Result<Decl, NoMemory>
    ensures { IfOk result decl.IsValid }
{
    let uri = Text::from_str(alloc, "urn:amp")?;
    let name = Text::from_str(alloc, "")?;
    let ports = ports(alloc)?;
    Ok(Decl {
        uri,
        name,
        minor: 0,
        micro: 0,
        worker: false,
        state: false,
        safe: false,
        reads: Items::new(alloc),
        writes: Items::new(alloc),
        ports,
    })
}

fn ports(alloc: Global) -> Result<Items<Port>, NoMemory>
    ensures { IfOk result AreThree }
{
    let mut ports = Items::new(alloc);
    ports.push(port(alloc, 0, "gain", true, PortKind::Control)?)?;
    ports.push(port(alloc, 1, "in", true, PortKind::Audio)?)?;
    ports.push(port(alloc, 2, "out", false, PortKind::Audio)?)?;
    Ok(ports)
}

fn port(
    alloc: Global,
    index: u32,
    symbol: &str,
    input: bool,
    kind: PortKind,
) -> Result<Port, NoMemory>
    ensures index { IfOk result (λ port. port.index ≡ index) }
    ensures kind { IfOk result (λ port. port.kind ≡ kind) }
    ensures room { IfOk result (λ port. port.room ≡ 0) }
{
    Ok(Port {
        index,
        symbol: Text::from_str(alloc, symbol)?,
        name: Text::from_str(alloc, symbol)?,
        input,
        kind,
        optional: false,
        first: Fixed(0),
        least: None,
        most: None,
        room: 0,
        control: false,
        patch: false,
    })
}
