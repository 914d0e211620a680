//! What is declared of the instances of the tests.
use lv_base::{Fixed, Items, NoMemory, Text};
use plugin_decl::{Decl, Port, PortKind};
use session_script::{Inst, Session};
use std::alloc::Global;

/// The declaration of each instance: one with everything for the URI `urn:x:all`, and one without state and message port for any
/// other.
pub fn decls(alloc: Global, session: &Session) -> Result<Vec<Decl>, NoMemory> {
    let mut decls = Vec::new(alloc);
    for inst in session.insts.as_slice() {
        decls.push(decl(alloc, inst)?)?;
    }
    Ok(decls)
}

fn decl(alloc: Global, inst: &Inst) -> Result<Decl, NoMemory> {
    let all = inst.uri.as_str() == "urn:x:all";
    Ok(Decl {
        uri: inst.uri.clone()?,
        name: Text::from_str(alloc, "")?,
        minor: 0,
        micro: 0,
        worker: false,
        state: all,
        safe: false,
        reads: Items::new(alloc),
        writes: Items::new(alloc),
        ports: ports(alloc, all)?,
    })
}

/// An input and an output of each kind; the atom input takes messages in one of the declarations.
fn ports(alloc: Global, patch: bool) -> Result<Items<Port>, NoMemory> {
    let mut ports = Items::new(alloc);
    push_ports(alloc, patch, &mut ports)?;
    Ok(ports)
}

fn push_ports(alloc: Global, patch: bool, ports: &mut Items<Port>) -> Result<(), NoMemory> {
    push_signals(alloc, ports)?;
    ports.push(port(alloc, 4, "gain", true, PortKind::Control, false)?)?;
    ports.push(port(alloc, 5, "level", false, PortKind::Control, false)?)?;
    ports.push(port(alloc, 6, "ask", true, PortKind::Atom, patch)?)?;
    ports.push(port(alloc, 7, "tell", false, PortKind::Atom, patch)?)?;
    ports.push(port(alloc, 8, "odd", true, PortKind::Unsupported, false)?)?;
    Ok(())
}

fn push_signals(alloc: Global, ports: &mut Items<Port>) -> Result<(), NoMemory> {
    ports.push(port(alloc, 0, "in", true, PortKind::Audio, false)?)?;
    ports.push(port(alloc, 1, "out", false, PortKind::Audio, false)?)?;
    ports.push(port(alloc, 2, "bend", true, PortKind::Cv, false)?)?;
    ports.push(port(alloc, 3, "bent", false, PortKind::Cv, false)?)?;
    Ok(())
}

fn port(
    alloc: Global,
    index: u32,
    symbol: &str,
    input: bool,
    kind: PortKind,
    patch: bool,
) -> Result<Port, NoMemory> {
    Ok(Port {
        index,
        symbol: Text::from_str(alloc, symbol)?,
        name: Text::from_str(alloc, symbol)?,
        input,
        kind,
        optional: false,
        first: Fixed(0),
        least: None,
        most: None,
        room: 0,
        control: false,
        patch,
    })
}
