ghost use Rattle.std.specs.Prelude.{◌≡◌, ◌≤◌, length, map, All, IfOk};
ghost use Rattle.plugin_decl.specs.declared.declaration.Port.{Port};
ghost use Rattle.plugin_decl.specs.Valid.{HasRoom};
ghost use Rattle.plug_api.specs.Buffers.{silenced};
ghost use Rattle.plug_api.specs.Roles as roles;
ghost use Rattle.block_signals.specs.Places.{outputs_among, is_output_of, quiet_outs};
ghost use Rattle.block_signals.specs.Places as places;

use lv_base::NoMemory;
use plug_api::Outs;
use plugin_decl::{Port, PortKind};
use std::alloc::Global;
use std::mem;

/// What the outputs of an instance gave in this block, and in the one before.
#[derive(Drop)]
pub struct Outlet {
    pub(crate) now: Outs,
    pub(crate) before: Outs,
}

impl Outlet {
    /// Buffers for the outputs among these ports, which gave nothing yet, in blocks of so many frames.
    pub(crate) fn with_ports(alloc: Global, ports: &[Port], frames: u32) -> Result<Outlet, NoMemory>
        requires rooms { All HasRoom ports.now }
        requires few { length ports.now ≤ 256 }
        ensures now { IfOk result (λ outlet. outlet.now ≡ quiet_outs frames ports.now) }
        ensures before { IfOk result (λ outlet. outlet.before ≡ quiet_outs frames ports.now) }
    {
        let now = quiet_outs(alloc, ports, frames)?;
        let before = quiet_outs(alloc, ports, frames)?;
        Ok(Outlet { now, before })
    }

    /// Keeps what was given in this block as that of the block before, and begins a block in which nothing was given yet.
    pub(crate) fn begin_block(&mut self)
        ensures before { self.new.before ≡ self.old.now }
        ensures now { self.new.now ≡ silenced self.old.before }
    {
        mem::swap(&mut self.now, &mut self.before);
        self.now.silence();
    }
}

/// Outputs before a run.
fn quiet_outs(alloc: Global, ports: &[Port], frames: u32) -> Result<Outs, NoMemory>
    requires rooms { All HasRoom ports.now }
    requires few { length ports.now ≤ 256 }
    ensures { IfOk result (λ outs. outs ≡ quiet_outs frames ports.now) }
{
    let rooms = rooms_of(alloc, ports)?;
    let mut outs = Outs::with_room(
        alloc,
        sounds_among(ports),
        frames,
        values_among(ports),
        rooms.as_slice(),
    )?;
    outs.silence();
    Ok(outs)
}

/// How many outputs of samples there are.
fn sounds_among(ports: &[Port]) -> u32
    requires { length ports.now ≤ 256 }
    ensures { result ≡ length (outputs_among roles.is_sound ports.now) }
{
    ports
        .iter()
        .filter(|port| !port.input && is_sound(port.kind))
        .count() as u32
}

/// How many outputs of values there are.
fn values_among(ports: &[Port]) -> u32
    requires { length ports.now ≤ 256 }
    ensures { result ≡ length (outputs_among roles.is_control ports.now) }
{
    ports
        .iter()
        .filter(|port| !port.input && is_control(port.kind))
        .count() as u32
}

/// For how many bytes each output of events has room.
fn rooms_of(alloc: Global, ports: &[Port]) -> Result<Vec<u32>, NoMemory>
    ensures { IfOk result (λ rooms. rooms.items ≡ map (λ (port : Port). port.room) (outputs_among roles.is_atom ports.now)) }
{
    let mut rooms = Vec::new(alloc);
    for port in ports {
        if !port.input && is_atom(port.kind) {
            rooms.push(port.room)?;
        }
    }
    Ok(rooms)
}

/// The place of each output in the list of its kind: as many outputs of that list stand before it.
pub(crate) fn places_of(alloc: Global, ports: &[Port]) -> Result<Vec<u32>, NoMemory>
    requires few { length ports.now ≤ 256 }
    requires within { All (λ (port : Port). port.index ≤ length ports.now) ports.now }
    ensures { IfOk result (λ of. of.items ≡ places.places_of ports.now) }
{
    let mut of = Vec::with_capacity(alloc, ports.len())?;
    for port in ports {
        of.push(place_in(ports, port))?;
    }
    Ok(of)
}

pub(crate) fn place_in(ports: &[Port], port: &Port) -> u32
    requires few { length ports.now ≤ 256 }
    requires within { port.now.index ≤ length ports.now }
    ensures { result ≡ places.place_in ports.now port.now }
{
    let earlier = &ports[..port.index as usize];
    earlier
        .iter()
        .filter(|other| !other.input && stands_beside(port.kind, other.kind))
        .count() as u32
}

/// Whether the kinds stand in one list.
pub(crate) fn stands_beside(kind: PortKind, other: PortKind) -> bool
    ensures { result ≡ places.beside kind other }
{
    match kind {
        PortKind::Audio | PortKind::Cv => is_sound(other),
        PortKind::Control => is_control(other),
        PortKind::Atom => is_atom(other),
        PortKind::Unsupported => false,
    }
}

/// Whether a port of a kind has samples.
pub(crate) fn is_sound(kind: PortKind) -> bool
    ensures { result ≡ roles.is_sound kind }
{
    matches!(kind, PortKind::Audio | PortKind::Cv)
}

fn is_control(kind: PortKind) -> bool
    ensures { result ≡ roles.is_control kind }
{
    matches!(kind, PortKind::Control)
}

/// Whether it has events.
pub(crate) fn is_atom(kind: PortKind) -> bool
    ensures { result ≡ roles.is_atom kind }
{
    matches!(kind, PortKind::Atom)
}
