ghost use Rattle.std.specs.Prelude.{◌≡◌};
ghost use Rattle.plug_api.specs.Roles as roles;
ghost use Rattle.plugin_decl.specs.MessagePorts.{faces};

use plugin_decl::{Port, PortKind};

/// Whether port `i` is declared as an audio input or, where `input` is false, as an audio output.
pub fn has_audio(input: bool, ports: &[Port], i: u32) -> bool
    ensures { result ≡ roles.has_audio input ports.now i }
{
    match ports.get(i as usize) {
        Some(port) => faces(port, input) && is_audio(port.kind),
        None => false,
    }
}

/// Whether it is a control input, or output.
pub fn has_control(input: bool, ports: &[Port], i: u32) -> bool
    ensures { result ≡ roles.has_control input ports.now i }
{
    match ports.get(i as usize) {
        Some(port) => faces(port, input) && is_control(port.kind),
        None => false,
    }
}

/// Whether it is an atom input, or output.
pub fn has_atom(input: bool, ports: &[Port], i: u32) -> bool
    ensures { result ≡ roles.has_atom input ports.now i }
{
    match ports.get(i as usize) {
        Some(port) => faces(port, input) && is_atom(port.kind),
        None => false,
    }
}

fn faces(port: &Port, input: bool) -> bool
    ensures { result ≡ faces input port.now }
{
    if input { port.input } else { !port.input }
}

fn is_audio(kind: PortKind) -> bool
    ensures { result ≡ roles.is_audio kind }
{
    matches!(kind, PortKind::Audio)
}

fn is_control(kind: PortKind) -> bool
    ensures { result ≡ roles.is_control kind }
{
    matches!(kind, PortKind::Control)
}

fn is_atom(kind: PortKind) -> bool
    ensures { result ≡ roles.is_atom kind }
{
    matches!(kind, PortKind::Atom)
}
