//! Sessions of one instance.
ghost use Rattle.std.specs.Prelude.{◌≡◌};

use graph_order::{Plan, Setup};
use lv_base::{Fixed, Items, NoMemory, Text};
use plugin_decl::{Decl, Port, PortKind};
use session_script::read;
use std::alloc::Global;
use std::test::Fail;

/// The setup of a script whose instance has two control outputs, `ok` and `refused`, beside a control input and an output of sound.
pub fn setup(alloc: Global, script: &[u8]) -> Result<Setup, Fail> {
    if script.len() >= 4_294_967_296 {
        return Err(Fail::from("too long"));
    }
    let session = read(alloc, script)?;
    let mut decls = Items::new(alloc);
    decls.push(burst(alloc)?)?;
    let plan = Plan {
        order: Items::from_slice(alloc, &[0])?,
        place: Items::from_slice(alloc, &[0])?,
    };
    Ok(Setup {
        session,
        decls,
        plan,
        states: Items::new(alloc),
    })
}

fn burst(alloc: Global) -> Result<Decl, NoMemory> {
    let uri = Text::from_str(alloc, "urn:lv2fx:burst")?;
    let name = Text::from_str(alloc, "")?;
    let ports = ports(alloc)?;
    Ok(Decl {
        uri,
        name,
        minor: 0,
        micro: 0,
        worker: true,
        state: false,
        safe: false,
        reads: Items::new(alloc),
        writes: Items::new(alloc),
        ports,
    })
}

fn ports(alloc: Global) -> Result<Items<Port>, NoMemory> {
    let mut ports = Items::new(alloc);
    ports.push(port(alloc, 0, "jobs", true, PortKind::Control)?)?;
    ports.push(port(alloc, 1, "ok", false, PortKind::Control)?)?;
    ports.push(port(alloc, 2, "out", false, PortKind::Audio)?)?;
    ports.push(port(alloc, 3, "refused", false, PortKind::Control)?)?;
    Ok(ports)
}

fn port(
    alloc: Global,
    index: u32,
    symbol: &str,
    input: bool,
    kind: PortKind,
) -> Result<Port, NoMemory> {
    Ok(Port {
        index,
        symbol: Text::from_str(alloc, symbol)?,
        name: Text::from_str(alloc, symbol)?,
        input,
        kind,
        optional: false,
        first: Fixed(0),
        least: None,
        most: None,
        room: 0,
        control: false,
        patch: false,
    })
}
