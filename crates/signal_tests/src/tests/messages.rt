//! Messages at an input of events, and what comes over a cable after them.
ghost use Rattle.std.specs.Prelude.{◌≡◌, ◌≤◌, ◌<◌, false, pos, IfOk};
ghost use Rattle.atom_core.specs.Value.{int, plain, timed};
ghost use Rattle.atom_core.specs.Spelling.{part_of};
ghost use Rattle.atom_forge.specs.Forged.{with_piece};
ghost use Rattle.graph_order.specs.Setup.{IsReady};
ghost use Rattle.plug_api.specs.Buffers.{begun_forge};
ghost use Rattle.block_signals.specs.Board.{Board, blank};
ghost use Rattle.block_signals.specs.Inlets.{HoldsInputs};
ghost use Rattle.block_signals.specs.Outlets.{ShowsOutputs};
ghost use Rattle.signal_tests.specs.Echo.{AreEchoes};

use super::echoes::echoes;
use atom_core::AtomView;
use atom_forge::Forge;
use atom_sequence::put_event;
use block_signals::{Inlets, Outlets};
use graph_order::Setup;
use plug_api::Outs;
use std::alloc::Global;
use std::process::Abort;
use std::test::Fail;

/// An echo after another.
const ROW: &str = "lv2fx 1
block 4
inst a urn:echo
inst b urn:echo
cable a out b in
";

/// A patch:Get of all: an object of type 15 without properties.
const GET: [u8; 16] = [8, 0, 0, 0, 9, 0, 0, 0, 0, 0, 0, 0, 15, 0, 0, 0];

/// A patch:Set of a property to the Int 7: an object of type 16 with the URID 1 under the key 18, and the Int under the key 19.
const SET: [u8; 64] = [
    56, 0, 0, 0, 9, 0, 0, 0, 0, 0, 0, 0, 16, 0, 0, 0, 18, 0, 0, 0, 0, 0, 0, 0, 4, 0, 0, 0, 4, 0, 0,
    0, 1, 0, 0, 0, 0, 0, 0, 0, 19, 0, 0, 0, 0, 0, 0, 0, 4, 0, 0, 0, 1, 0, 0, 0, 7, 0, 0, 0, 0, 0,
    0, 0,
];

/// The Int 3.
const THREE: [u8; 12] = [4, 0, 0, 0, 1, 0, 0, 0, 3, 0, 0, 0];

/// Eight bytes of unit and padding; the Get and the Set at frame 0, and the Int 3 at frame 2.
const IN_ORDER: [u8; 128] = [
    0, 0, 0, 0, 0, 0, 0, 0, 0, 0, 0, 0, 0, 0, 0, 0, 8, 0, 0, 0, 9, 0, 0, 0, 0, 0, 0, 0, 15, 0, 0,
    0, 0, 0, 0, 0, 0, 0, 0, 0, 56, 0, 0, 0, 9, 0, 0, 0, 0, 0, 0, 0, 16, 0, 0, 0, 18, 0, 0, 0, 0, 0,
    0, 0, 4, 0, 0, 0, 4, 0, 0, 0, 1, 0, 0, 0, 0, 0, 0, 0, 19, 0, 0, 0, 0, 0, 0, 0, 4, 0, 0, 0, 1,
    0, 0, 0, 7, 0, 0, 0, 0, 0, 0, 0, 2, 0, 0, 0, 0, 0, 0, 0, 4, 0, 0, 0, 1, 0, 0, 0, 3, 0, 0, 0, 0,
    0, 0, 0,
];

/// The first instance writes the Int 3 at frame 2 of its output.
fn run_first(setup: &Setup, outlets: &mut Outlets)
    requires ready { IsReady setup.now }
    requires echoes { AreEchoes setup.now }
    requires frames { 3 ≤ setup.now.session.block }
    requires shows { ShowsOutputs setup.now blank outlets.old }
    ensures { (board : Board) × ShowsOutputs setup.now board outlets.new }
{
    let outs = outlets.now_mut(0);
    write_three(outs.forge_mut(0));
}

fn write_three(forge: &mut Forge)
    requires { forge.old ≡ begun_forge 4096 }
    ensures { forge.new ≡ with_piece forge.old (part_of (timed (pos 2)) (plain (int (pos 3)))) false }
{
    let _ = put_event(forge, 2, AtomView::over(&THREE));
}

/// A Get for the second instance.
fn take_get(setup: &Setup, inlets: &mut Inlets)
    requires echoes { AreEchoes setup.now }
    requires holds { (board : Board) × HoldsInputs setup.now board inlets.old }
    ensures { (board : Board) × HoldsInputs setup.now board inlets.new }
{
    inlets.take_message(1, &GET);
}

/// A Set for it.
fn take_set(setup: &Setup, inlets: &mut Inlets)
    requires echoes { AreEchoes setup.now }
    requires holds { (board : Board) × HoldsInputs setup.now board inlets.old }
    ensures { (board : Board) × HoldsInputs setup.now board inlets.new }
{
    inlets.take_message(1, &SET);
}

/// What the second instance is given: the body of its sequence.
fn given(
    alloc: Global,
    setup: &Setup,
    inlets: &mut Inlets,
    outlets: &Outlets,
) -> Result<Vec<u8>, Fail>
    requires ready { IsReady setup.now }
    requires echoes { AreEchoes setup.now }
    requires shows { (board : Board) × ShowsOutputs setup.now board outlets.now }
    requires holds { (board : Board) × HoldsInputs setup.now board inlets.old }
{
    inlets.fill(1, outlets);
    let mut spare = Outs::with_room(alloc, 0, 0, 0, &[])?;
    let ports = setup.decls.as_slice()[1].ports.as_slice();
    let lent = inlets.ports(1, ports, &mut spare);
    let mut body = Vec::new(alloc);
    body.extend_from_slice(lent.events(0).body())?;
    Ok(body)
}

fn two_messages(alloc: Global, setup: &Setup) -> Result<Vec<u8>, Fail>
    requires ready { IsReady setup.now }
    requires echoes { AreEchoes setup.now }
{
    let mut outlets = Outlets::new(alloc, setup)?;
    let mut inlets = Inlets::new(alloc, setup)?;
    if setup.session.block < 3 {
        return Err(Fail::from("short blocks"));
    }
    run_first(setup, &mut outlets);
    take_get(setup, &mut inlets);
    take_set(setup, &mut inlets);
    given(alloc, setup, &mut inlets, &outlets)
}

/// The input has room for 56 Sets, and then for the Int, but not for another Set.
fn many_messages(alloc: Global, setup: &Setup) -> Result<Vec<u8>, Fail>
    requires ready { IsReady setup.now }
    requires echoes { AreEchoes setup.now }
{
    let mut outlets = Outlets::new(alloc, setup)?;
    let mut inlets = Inlets::new(alloc, setup)?;
    if setup.session.block < 3 {
        return Err(Fail::from("short blocks"));
    }
    run_first(setup, &mut outlets);
    for _ in 0..57 {
        take_set(setup, &mut inlets);
    }
    given(alloc, setup, &mut inlets, &outlets)
}

fn first_messages(alloc: Global) -> Result<Vec<u8>, Fail> {
    let setup = echoes(alloc, ROW.as_bytes())?;
    two_messages(alloc, &setup)
}

fn all_messages(alloc: Global) -> Result<Vec<u8>, Fail> {
    let setup = echoes(alloc, ROW.as_bytes())?;
    many_messages(alloc, &setup)
}

#[test]
fn messages_come_before_events(rt: HostRuntime) -> Result<(), Fail> {
    let body = first_messages(rt.alloc())?;
    assert!(rt; body.as_slice() == IN_ORDER.as_slice());
    Ok(())
}

#[test]
fn a_message_without_room_cuts_the_rest(rt: HostRuntime) -> Result<(), Fail> {
    let body = all_messages(rt.alloc())?;
    assert!(rt; body.len() == 8 + 56 * 72);
    Ok(())
}
