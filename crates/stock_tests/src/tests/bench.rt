//! A bench: a declaration of a stock code, and buffers for its inputs. A block has 16 frames, and each port its own place.
ghost use Rattle.std.specs.Prelude.{◌≡◌, ◌<◌, ◌≤◌, true, ℕ, length, map, slice_index, IfOk, IsTrue};
ghost use Rattle.plugin_decl.specs.declared.declaration.Port.{Port};
ghost use Rattle.plugin_decl.specs.Valid.{IsValid};
ghost use Rattle.plug_api.specs.Buffers.{forge_at};
ghost use Rattle.plug_api.specs.Ports.{outs_of, IsSameLoan};
ghost use Rattle.plug_api.specs.Roles.{has_atom};
ghost use Rattle.plug_api.specs.Sequences.{IsSequence};
ghost use Rattle.stock_tests.specs.Bench.{frames, IsBench, HasEvents, AreOuts, Lends, HaveOuts};

use super::declared::declared;
use arrayvec::ArrayVec;
use instance_class::{BackOf, FrontOf, Made};
use list_calls::{Caller, activate, make, run};
use lv_base::{Fixed, NoMemory, Sample};
use plug_api::{Ins, Outs, Ports, has_atom};
use plugin_decl::{Decl, Port, options_of};
use std::alloc::Global;
use std::test::Fail;
use step_record::{Log, Parcel};
use stock_codes::Stock;
use urid_map::Urids;

const FRAMES: u32 = 16;

/// Who makes and activates instances.
const CONTROL: u32 = 1;

/// Who plays them, with the ring of the jobs of instance 0.
const AUDIO: Caller = Caller {
    actor: 0,
    ring: 18,
    cells: 4,
    works: true,
};

#[derive(Drop)]
pub(super) struct Bench {
    pub decl: Decl,
    pub ins: Ins,
}

/// The outputs of a run, and the jobs that it scheduled.
#[derive(Drop)]
pub(super) struct Played {
    pub outs: Outs,
    pub jobs: ArrayVec<Parcel, 64>,
}

/// A bench for the stock code with this URI. All inputs are silent, and 0.
pub(super) fn bench_for(alloc: Global, uri: &str) -> Result<Bench, Fail>
    ensures { IfOk result (λ bench. IsBench bench.decl bench.ins) }
{
    let decl = declared(alloc, uri)?;
    let ins = Ins::with_ports(alloc, decl.ports.as_slice(), FRAMES)?;
    Ok(Bench { decl, ins })
}

/// Puts a value at a port.
pub(super) fn put_value(bench: &mut Bench, i: u32, value: Fixed) -> Result<(), Fail>
    requires { IsBench bench.old.decl bench.old.ins }
    ensures { IsBench bench.new.decl bench.new.ins }
{
    if bench.decl.ports.as_slice().len() <= i as usize {
        return Err(Fail::new("no port"));
    }
    bench.ins.set_value(i, value);
    Ok(())
}

/// Puts samples at a port, as many as there are frames.
pub(super) fn put_samples(bench: &mut Bench, i: u32, samples: &[Sample]) -> Result<(), Fail>
    requires { IsBench bench.old.decl bench.old.ins }
    ensures { IsBench bench.new.decl bench.new.ins }
{
    if bench.decl.ports.as_slice().len() <= i as usize {
        return Err(Fail::new("no port"));
    }
    if samples.len() != bench.ins.block(i).len() {
        return Err(Fail::new("another number of frames"));
    }
    bench.ins.set_block(i, samples);
    Ok(())
}

/// A new instance.
fn made(alloc: Global, decl: &Decl) -> Result<Made<Stock>, Fail>
    ensures { IfOk result (λ made. made.ports ≡ decl.now.ports) }
{
    let mut urids = Urids::new(alloc)?;
    let mut log = Log::with_room(alloc, 2)?;
    let options = options_of(FRAMES);
    match make(
        &Stock, alloc, decl, 0, 48000, &options, &mut urids, CONTROL, &mut log,
    ) {
        Ok(made) => Ok(made),
        Err(_) => Err(Fail::new("not made")),
    }
}

/// Both parts of a new instance that is active.
pub(super) fn active(alloc: Global, decl: &Decl) -> Result<(FrontOf<Stock>, BackOf<Stock>), Fail>
    ensures ports { IfOk result (λ parts. parts.0.ports ≡ decl.now.ports) }
    ensures inst { IfOk result (λ parts. parts.0.inst ≡ parts.1.inst) }
{
    let mut log = Log::with_room(alloc, 2)?;
    let made = made(alloc, decl)?;
    Ok(activate(made, CONTROL, &mut log))
}

fn places(alloc: Global, count: u32) -> Result<Vec<u32>, NoMemory>
    ensures { IfOk result (λ places. (length places.items ≡ count) × ((i : ℕ) → i < count → slice_index places.items i ≡ i)) }
{
    let mut places = Vec::with_capacity(alloc, count as usize)?;
    for i in 0..count {
        places.push(i)?;
    }
    Ok(places)
}

fn rooms(alloc: Global, ports: &[Port]) -> Result<Vec<u32>, NoMemory>
    ensures { IfOk result (λ rooms. rooms.items ≡ map (λ (port : Port). port.room) ports.now) }
{
    Ok(ports.iter().map(|port| port.room).collect(alloc)?)
}

/// Outputs as a run wants them.
fn silent_outs(alloc: Global, decl: &Decl) -> Result<Outs, NoMemory>
    requires { IsValid decl.now }
    ensures { IfOk result (λ outs. AreOuts decl.now.ports outs) }
{
    let count = decl.ports.as_slice().len() as u32;
    let rooms = rooms(alloc, decl.ports.as_slice())?;
    let mut outs = Outs::with_room(alloc, count, FRAMES, count, rooms.as_slice())?;
    outs.silence();
    Ok(outs)
}

/// Whether no port but the first takes atoms.
fn takes_first(ports: &[Port]) -> bool
    requires { length ports.now ≤ 256 }
    ensures { IsTrue result → (i : ℕ) → has_atom true ports.now i ≡ true → i ≡ 0 }
{
    for i in 1..ports.len() as u32 {
        if has_atom(true, ports, i) {
            return false;
        }
    }
    true
}

/// Plays a block over the ports of a bench.
fn run_lent(
    front: &mut FrontOf<Stock>,
    decl: &Decl,
    ports: &mut Ports<'_>,
    jobs: &mut ArrayVec<Parcel, 64>,
    log: &mut Log,
)
    requires lends { Lends ports.old decl.now }
    requires ports { front.old.ports ≡ decl.now.ports }
    requires list { length jobs.old.items ≤ 4 }
    requires spare { 18 ≤ log.old.spare }
    ensures outs { HaveOuts decl.now.ports (outs_of ports.new) }
    ensures same_loan { IsSameLoan ports.old ports.new }
    ensures front { front.new.ports ≡ front.old.ports }
{
    run(front, ports, jobs, AUDIO, log);
}

/// Plays a block into silent outputs.
fn run_over(
    front: &mut FrontOf<Stock>,
    bench: &Bench,
    of: &[u32],
    outs: &mut Outs,
    list: &mut ArrayVec<Parcel, 64>,
    log: &mut Log,
)
    requires bench { IsBench bench.now.decl bench.now.ins }
    requires events { HasEvents bench.now.decl.ports bench.now.ins }
    requires ports { front.old.ports ≡ bench.now.decl.ports }
    requires places { length of.now ≡ length bench.now.decl.ports }
    requires own { (i : ℕ) → i < length bench.now.decl.ports → slice_index of.now i ≡ i }
    requires outs { AreOuts bench.now.decl.ports outs.old }
    requires list { length list.old.items ≤ 4 }
    requires spare { 18 ≤ log.old.spare }
    ensures outs { HaveOuts bench.now.decl.ports outs.new }
    ensures front { front.new.ports ≡ front.old.ports }
{
    let mut ports = Ports::over(bench.decl.ports.as_slice(), &bench.ins, of, outs);
    run_lent(front, &bench.decl, &mut ports, list, log);
}

/// Plays a block.
pub(super) fn play(alloc: Global, bench: &Bench, front: &mut FrontOf<Stock>) -> Result<Played, Fail>
    requires bench { IsBench bench.now.decl bench.now.ins }
    requires events { has_atom true bench.now.decl.ports 0 ≡ true → IsSequence frames (forge_at bench.now.ins.events 0) }
    requires ports { front.old.ports ≡ bench.now.decl.ports }
    ensures front { front.new.ports ≡ front.old.ports }
    ensures outs { IfOk result (λ played. HaveOuts bench.now.decl.ports played.outs) }
{
    if !takes_first(bench.decl.ports.as_slice()) {
        return Err(Fail::new("another atom port"));
    }
    let of = places(alloc, bench.decl.ports.as_slice().len() as u32)?;
    let mut log = Log::with_room(alloc, 18)?;
    let mut outs = silent_outs(alloc, &bench.decl)?;
    let mut jobs: ArrayVec<Parcel, 64> = ArrayVec::new();
    run_over(front, bench, of.as_slice(), &mut outs, &mut jobs, &mut log);
    Ok(Played { outs, jobs })
}

/// Plays the first block of a new instance whose code takes no atoms.
pub(super) fn play_first(alloc: Global, bench: &Bench) -> Result<Played, Fail>
    requires { IsBench bench.now.decl bench.now.ins }
    ensures { IfOk result (λ played. HaveOuts bench.now.decl.ports played.outs) }
{
    if has_atom(true, bench.decl.ports.as_slice(), 0) {
        return Err(Fail::new("an atom port"));
    }
    let (mut front, _back) = active(alloc, &bench.decl)?;
    play(alloc, bench, &mut front)
}
