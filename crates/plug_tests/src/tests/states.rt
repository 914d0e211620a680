//! What keep and tank store and take back.
ghost use Rattle.std.specs.Prelude.{◌≡◌, [], IfOk};

use super::jobs::{assert_silent, assert_worked, worked};
use arrayvec::ArrayVec;
use lv_base::NoMemory;
use plug_api::Back;
use state_store::{Props, Shelf};
use std::alloc::Global;
use std::process::Abort;
use std::test::Fail;
use step_record::{Count, Log, Parcel};
use stock_state::{KeepBack, KeepFront, restore_keep};
use stock_tank::{TankBack, TankFront, restore_tank};
use worker_ring::ListSched;

/// The number of the level's key, and how many URIs have numbers.
const KEY: u32 = 26;

/// A quarter.
const LEVEL: [u8; 8] = [0, 0, 64, 0, 0, 0, 0, 0];

fn empty_shelf(alloc: Global) -> Result<Shelf, NoMemory>
    ensures { IfOk result (λ shelf. shelf.rows ≡ []) }
{
    Shelf::with_room(alloc, KEY)
}

/// Properties with one of this type under a key.
fn one_property(alloc: Global, key: u32, kind: u32, bytes: &[u8]) -> Result<Props, NoMemory> {
    let mut shelf = Shelf::with_room(alloc, KEY)?;
    shelf.store(key, kind, 3, bytes);
    shelf.finish()
}

/// What a back stores.
fn saved<B: Back>(alloc: Global, back: &B) -> Result<(u8, Props), NoMemory> {
    let mut shelf = empty_shelf(alloc)?;
    let status = back.save(&mut shelf);
    Ok((status, shelf.finish()?))
}

/// A level is stored as a Fixed.
fn assert_saved<R: Abort>(rt: &R, saved: &(u8, Props), level: &[u8]) {
    let stored = saved.1.retrieve(KEY);
    assert_eq!(rt; saved.0, 0);
    assert!(rt; stored.is_some_and(|prop| prop.kind == 14 && prop.flags == 3));
    assert!(rt; stored.is_some_and(|prop| prop.bytes.as_slice() == level));
}

/// What keep answers to a restore, and what it then stores.
fn kept(alloc: Global, from: &Props) -> Result<(u8, u8, Props), NoMemory> {
    let mut front = KeepFront::new();
    let mut back = KeepBack::with_key(KEY);
    let status = restore_keep(&mut front, &mut back, from);
    let (stored, props) = saved(alloc, &back)?;
    Ok((status, stored, props))
}

#[test]
fn keep_takes_a_level_back(rt: HostRuntime) -> Result<(), Fail> {
    let from = one_property(rt.alloc(), KEY, 14, &LEVEL)?;
    let (status, stored, props) = kept(rt.alloc(), &from)?;
    assert_eq!(rt; status, 0);
    assert_saved(&rt, &(stored, props), &LEVEL);
    Ok(())
}

#[test]
fn keep_refuses_a_long(rt: HostRuntime) -> Result<(), Fail> {
    let from = one_property(rt.alloc(), KEY, 2, &LEVEL)?;
    let (status, stored, props) = kept(rt.alloc(), &from)?;
    assert_eq!(rt; status, 2);
    assert_saved(&rt, &(stored, props), &[0; 8]);
    Ok(())
}

#[test]
fn keep_misses_another_key(rt: HostRuntime) -> Result<(), Fail> {
    let from = one_property(rt.alloc(), KEY - 1, 14, &LEVEL)?;
    let (status, stored, props) = kept(rt.alloc(), &from)?;
    assert_eq!(rt; status, 5);
    assert_saved(&rt, &(stored, props), &[0; 8]);
    Ok(())
}

#[test]
fn tank_takes_a_level_that_was_set(rt: HostRuntime) -> Result<(), Fail> {
    let mut back = TankBack::with_key(KEY);
    let got = worked(rt.alloc(), &mut back, &LEVEL)?;
    assert_silent(&rt, &got, 0);
    assert_saved(&rt, &saved(rt.alloc(), &back)?, &LEVEL);
    Ok(())
}

#[test]
fn tank_tells_the_front_of_a_restore(rt: HostRuntime) -> Result<(), Fail> {
    let mut back = TankBack::with_key(KEY);
    let got = worked(rt.alloc(), &mut back, &[1, 0, 0, 64, 0, 0, 0, 0, 0])?;
    assert_worked(&rt, &got, 0, &LEVEL);
    assert_saved(&rt, &saved(rt.alloc(), &back)?, &LEVEL);
    Ok(())
}

/// Nine bytes that don't begin with 1 are no job.
#[test]
fn tank_does_no_other_job(rt: HostRuntime) -> Result<(), Fail> {
    let mut back = TankBack::with_key(KEY);
    let got = worked(rt.alloc(), &mut back, &[2, 0, 0, 64, 0, 0, 0, 0, 0])?;
    assert_silent(&rt, &got, 1);
    assert_saved(&rt, &saved(rt.alloc(), &back)?, &[0; 8]);
    Ok(())
}

/// The jobs of a thread-safe restore, and its status.
fn restored(alloc: Global, from: &Props) -> Result<(u8, ArrayVec<Parcel, 64>), NoMemory> {
    let mut jobs: ArrayVec<Parcel, 64> = ArrayVec::new();
    let mut tickets = Count::from_number(0);
    let mut log = Log::with_room(alloc, 18)?;
    let mut back = TankBack::with_key(KEY);
    let mut sched = ListSched::new(&mut jobs, 4, 2, &mut tickets, &mut log, 20, true);
    let status = back.restore_safe(from, &mut sched);
    Ok((status, jobs))
}

#[test]
fn tank_restores_by_a_job(rt: HostRuntime) -> Result<(), Fail> {
    let from = one_property(rt.alloc(), KEY, 14, &LEVEL)?;
    let (status, jobs) = restored(rt.alloc(), &from)?;
    let job = jobs.as_slice().first();
    assert_eq!(rt; status, 0);
    assert_eq!(rt; jobs.len(), 1);
    assert!(rt; job.is_some_and(|job| job.as_slice() == [1, 0, 0, 64, 0, 0, 0, 0, 0].as_slice()));
    Ok(())
}

#[test]
fn tank_gives_both_parts_a_level(rt: HostRuntime) -> Result<(), Fail> {
    let from = one_property(rt.alloc(), KEY, 14, &LEVEL)?;
    let mut front = TankFront::with_key(KEY);
    let mut back = TankBack::with_key(KEY);
    assert_eq!(rt; restore_tank(&mut front, &mut back, &from), 0);
    assert_saved(&rt, &saved(rt.alloc(), &back)?, &LEVEL);
    Ok(())
}
