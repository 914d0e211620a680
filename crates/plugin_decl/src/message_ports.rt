ghost use Rattle.std.specs.Prelude.{◌≡◌, find, true, false};
ghost use Rattle.std.specs.Option.{option_copied};
ghost use Rattle.plugin_decl.specs.MessagePorts.{is_atom_end, is_designated, is_speaking, chosen, message_port};

use crate::declaration::{Decl, Port, PortKind};

/// The index of the port that takes patch messages: the first atom input that is designated `lv2:control`, else the first that
/// supports `patch:Message`. None exactly where there is neither.
pub fn patch_port(decl: &Decl) -> Option<u32>
    ensures { result ≡ message_port true decl.now.ports }
{
    message_port(true, decl.ports.as_slice())
}

/// The index of the port that answers them: the same among the atom outputs.
pub fn reply_port(decl: &Decl) -> Option<u32>
    ensures { result ≡ message_port false decl.now.ports }
{
    message_port(false, decl.ports.as_slice())
}

fn message_port(input: bool, ports: &[Port]) -> Option<u32>
    ensures { result ≡ message_port input ports.now }
{
    let port = chosen(input, ports)?;
    Some(port.index)
}

fn chosen(input: bool, ports: &[Port]) -> Option<&Port>
    ensures { option_copied result ≡ chosen input ports.now }
{
    match first_designated(input, ports) {
        Some(port) => Some(port),
        None => first_speaking(input, ports),
    }
}

fn first_designated(input: bool, ports: &[Port]) -> Option<&Port>
    ensures { option_copied result ≡ find (is_designated input) ports.now }
{
    ports.iter().find(|port| is_designated(input, *port))
}

fn first_speaking(input: bool, ports: &[Port]) -> Option<&Port>
    ensures { option_copied result ≡ find (is_speaking input) ports.now }
{
    ports.iter().find(|port| is_speaking(input, *port))
}

fn is_designated(input: bool, port: &Port) -> bool
    ensures { result ≡ is_designated input port.now }
{
    is_atom_end(input, port) && port.control
}

fn is_speaking(input: bool, port: &Port) -> bool
    ensures { result ≡ is_speaking input port.now }
{
    is_atom_end(input, port) && port.patch
}

/// An atom port of one direction.
fn is_atom_end(input: bool, port: &Port) -> bool
    ensures { result ≡ is_atom_end input port.now }
{
    match port.kind {
        PortKind::Atom => { if input { port.input } else { !port.input } }
        _ => false,
    }
}
