ghost use Rattle.std.specs.Prelude.{◌≡◌, ◌≤◌, ◌<◌, length, All, IfOk, filter_map, map};
ghost use Rattle.std.specs.Option.{option_copied};
ghost use Rattle.std.specs.Str.{bytes_eq};
ghost use Rattle.graph_order.specs.Setup.{IsReady};
ghost use Rattle.graph_order.specs.Ports.{port_in, port_at};
ghost use Rattle.plugin_decl.specs.declared.declaration.Port.{Port};
ghost use Rattle.session_play.specs.Setup.{ports_of};
ghost use Rattle.session_script.specs.declared.session.CableLine.{CableLine};
ghost use Rattle.block_signals.specs.Sources as spec;

use crate::outlet::{is_atom, is_sound, place_in, stands_beside};
use graph_order::Setup;
use lv_base::{Items, NoMemory, Text};
use plugin_decl::{Decl, Port, PortKind};
use session_script::CableLine;
use std::alloc::Global;

/// Where a signal comes from: the place of an output of an instance, in this block, or with a delay in the one before.
#[derive(Clone, Copy)]
pub(crate) struct Source {
    pub inst: u32,
    pub place: u32,
    pub delayed: bool,
}

/// What is put at a port before each run.
#[derive(Drop)]
pub(crate) enum Input {
    /// The mix of these signals.
    Sound(Items<Source>),
    /// The events of these.
    Events(Items<Source>),
    /// Nothing: it is an output, or a control input, whose value stands there already.
    Still,
}

/// What is put at each port of an instance.
pub(crate) fn inputs_of(
    alloc: Global,
    setup: &Setup,
    inst: u32,
    ports: &[Port],
) -> Result<Items<Input>, NoMemory>
    requires { IsReady setup.now }
    ensures { IfOk result (λ inputs. inputs ≡ map (spec.input_of setup.now inst) ports.now) }
{
    let mut inputs = Items::new(alloc);
    for port in ports {
        inputs.push(input_of(alloc, setup, inst, port)?)?;
    }
    Ok(inputs)
}

fn input_of(alloc: Global, setup: &Setup, inst: u32, port: &Port) -> Result<Input, NoMemory>
    requires { IsReady setup.now }
    ensures { IfOk result (λ input. input ≡ spec.input_of setup.now inst port.now) }
{
    if port.input && is_sound(port.kind) {
        return Ok(Input::Sound(sources_to(alloc, setup, inst, port)?));
    }
    if port.input && is_atom(port.kind) {
        return Ok(Input::Events(sources_to(alloc, setup, inst, port)?));
    }
    Ok(Input::Still)
}

/// The sources of a port, in order of the cables' lines.
fn sources_to(
    alloc: Global,
    setup: &Setup,
    inst: u32,
    port: &Port,
) -> Result<Items<Source>, NoMemory>
    requires { IsReady setup.now }
    ensures { IfOk result (λ sources. sources ≡ spec.sources_to setup.now inst port.now) }
{
    let mut sources = Items::new(alloc);
    for cable in setup.session.cables.as_slice() {
        if let Some(source) = source_to(setup, inst, port, cable) {
            sources.push(source)?;
        }
    }
    Ok(sources)
}

/// The source of a cable, if it leads to the port from an output of the same list.
fn source_to(setup: &Setup, inst: u32, port: &Port, cable: &CableLine) -> Option<Source>
    requires { IsReady setup.now }
    ensures { result ≡ spec.source_to setup.now inst port.now cable.now }
{
    if leads_to(cable, inst, port) {
        return source_of(setup, port.kind, cable.source, &cable.output, cable.delayed);
    }
    None
}

fn leads_to(cable: &CableLine, inst: u32, port: &Port) -> bool
    ensures { result ≡ spec.leads_to inst port.now cable.now }
{
    cable.target == inst && cable.input.as_str() == port.symbol.as_str()
}

/// An output of an instance as a source, if it stands in one list with a kind.
pub(crate) fn source_of(
    setup: &Setup,
    kind: PortKind,
    inst: u32,
    symbol: &Text,
    delayed: bool,
) -> Option<Source>
    requires { IsReady setup.now }
    ensures { (cable : CableLine) → cable.source ≡ inst → cable.output ≡ symbol.now → cable.delayed ≡ delayed → result ≡ spec.source_of setup.now kind cable }
{
    let decl = setup.decls.get(inst as usize)?;
    let output = port_in(decl, symbol)?;
    if output.input || !stands_beside(kind, output.kind) {
        return None;
    }
    Some(Source {
        inst,
        place: place_in(decl.ports.as_slice(), output),
        delayed,
    })
}

/// The port of a declaration with this symbol.
fn port_in<'a>(decl: &'a Decl, symbol: &Text) -> Option<&'a Port>
    ensures { option_copied result ≡ port_in symbol.now decl.now }
{
    decl.ports
        .as_slice()
        .iter()
        .find(|port| has_symbol(port, symbol))
}

fn has_symbol(port: &Port, symbol: &Text) -> bool
    ensures { result ≡ bytes_eq port.now.symbol symbol.now }
{
    port.symbol.as_str() == symbol.as_str()
}
