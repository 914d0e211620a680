ghost use Rattle.std.specs.Prelude.{◌≡◌};
ghost use Rattle.std.specs.Option.{option_copied};
ghost use Rattle.std.specs.Str.{bytes_eq};
ghost use Rattle.graph_order.specs.Ports.{port_in, port_at, is_control, is_signal, is_audio, is_cv, is_atom, fits};

use lv_base::Text;
use plugin_decl::{Decl, Port, PortKind};

/// The port of an instance with this symbol.
pub(crate) fn port_at<'a>(decls: &'a [Decl], inst: u32, symbol: &Text) -> Option<&'a Port>
    ensures { option_copied result ≡ port_at decls.now inst symbol.now }
{
    port_in(decls.get(inst as usize)?, symbol)
}

/// The port of a declaration with this symbol.
fn port_in<'a>(decl: &'a Decl, symbol: &Text) -> Option<&'a Port>
    ensures { option_copied result ≡ port_in symbol.now decl.now }
{
    decl.ports
        .as_slice()
        .iter()
        .find(|port| has_symbol(port, symbol))
}

fn has_symbol(port: &Port, symbol: &Text) -> bool
    ensures { result ≡ bytes_eq port.now.symbol symbol.now }
{
    port.symbol.as_str() == symbol.as_str()
}

/// Whether a value can be set there.
pub(crate) fn is_control(kind: PortKind) -> bool
    ensures { result ≡ is_control kind }
{
    match kind {
        PortKind::Control => true,
        _ => false,
    }
}

/// Whether it can be heard: it has a sample for each frame.
pub(crate) fn is_signal(kind: PortKind) -> bool
    ensures { result ≡ is_signal kind }
{
    match kind {
        PortKind::Audio | PortKind::Cv => true,
        _ => false,
    }
}

fn is_audio(kind: PortKind) -> bool
    ensures { result ≡ is_audio kind }
{
    match kind {
        PortKind::Audio => true,
        _ => false,
    }
}

fn is_cv(kind: PortKind) -> bool
    ensures { result ≡ is_cv kind }
{
    match kind {
        PortKind::Cv => true,
        _ => false,
    }
}

fn is_atom(kind: PortKind) -> bool
    ensures { result ≡ is_atom kind }
{
    match kind {
        PortKind::Atom => true,
        _ => false,
    }
}

/// Whether a cable leads from the one kind to the other.
pub(crate) fn fits(output: PortKind, input: PortKind) -> bool
    ensures { result ≡ fits output input }
{
    match output {
        PortKind::Audio => is_audio(input),
        PortKind::Cv => is_cv(input),
        PortKind::Atom => is_atom(input),
        PortKind::Control | PortKind::Unsupported => false,
    }
}
