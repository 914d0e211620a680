//! Sessions of two instances with an input and an output of events each.
ghost use Rattle.std.specs.Prelude.{◌≡◌, IfOk, All};
ghost use Rattle.graph_order.specs.Setup.{IsReady};
ghost use Rattle.signal_tests.specs.Echo.{AreTwo, AreEchoes, IsEcho};
ghost use Rattle.plugin_decl.specs.Valid as decl;
ghost use Rattle.plugin_decl.specs.declared.declaration.PortKind.TheVariants as kind;

use super::setups::{planned, session};
use graph_order::Setup;
use lv_base::{Fixed, Items, NoMemory, Text};
use plugin_decl::{Decl, Port, PortKind};
use std::alloc::Global;
use std::test::Fail;

/// The setup of a script with two instances: port 0 is the input, for messages too, and port 1 the output.
pub fn echoes(alloc: Global, script: &[u8]) -> Result<Setup, Fail>
    ensures ready { IfOk result IsReady }
    ensures echoes { IfOk result AreEchoes }
{
    let session = session(alloc, script)?;
    let mut decls = Items::new(alloc);
    decls.push(echo(alloc)?)?;
    decls.push(echo(alloc)?)?;
    planned(alloc, session, decls)
}

#[tactic(auto, using(crate::proofs::Two::two_valid))]
fn echo(alloc: Global) -> Result<Decl, NoMemory>
    ensures valid { IfOk result decl.IsValid }
    ensures echo { IfOk result IsEcho }
{
    let uri = Text::from_str(alloc, "urn:echo")?;
    let name = Text::from_str(alloc, "")?;
    let ports = ports(alloc)?;
    Ok(Decl {
        uri,
        name,
        minor: 0,
        micro: 0,
        worker: false,
        state: false,
        safe: false,
        reads: Items::new(alloc),
        writes: Items::new(alloc),
        ports,
    })
}

fn ports(alloc: Global) -> Result<Items<Port>, NoMemory>
    ensures { IfOk result AreTwo }
{
    let mut ports = Items::new(alloc);
    ports.push(port(alloc, 0, "in", true)?)?;
    ports.push(port(alloc, 1, "out", false)?)?;
    Ok(ports)
}

fn port(alloc: Global, index: u32, symbol: &str, input: bool) -> Result<Port, NoMemory>
    ensures index { IfOk result (λ port. port.index ≡ index) }
    ensures side { IfOk result (λ port. port.input ≡ input) }
    ensures kind { IfOk result (λ port. port.kind ≡ kind.Atom) }
    ensures room { IfOk result (λ port. port.room ≡ 4096) }
{
    Ok(Port {
        index,
        symbol: Text::from_str(alloc, symbol)?,
        name: Text::from_str(alloc, symbol)?,
        input,
        kind: PortKind::Atom,
        optional: false,
        first: Fixed(0),
        least: None,
        most: None,
        room: 4096,
        control: true,
        patch: true,
    })
}
