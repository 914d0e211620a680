//! Calls in a record that stands: those that are due are taken in it, and others are refused.
ghost use Rattle.std.specs.Prelude.{◌≡◌, ◌≤◌, IfOk, OnOk};
ghost use Rattle.record_terms.specs.Session.{IsSession};
ghost use Rattle.judged_log.specs.Followed.{IsFollowed, entries_of};

use super::bench::active;
use super::declared::declared;
use arrayvec::ArrayVec;
use instance_class::{BackOf, FrontOf, Made};
use judged_log::{Halt, JudgedLog};
use list_calls::Caller;
use lv_base::{Items, NoMemory};
use plugin_decl::{Decl, options_of};
use record_law::{Broken, Shape, ShapeInst};
use state_store::{Props, Shelf};
use std::alloc::Global;
use std::test::Fail;
use step_record::{Actor, Entry, Parcel, Ring};
use stock_codes::Stock;
use told_calls::{
    activate, cleanup, deactivate, end_run, make, respond, restore, restore_safe, save, work,
};
use told_entries::{mark_plain, mark_take};
use urid_map::Urids;

const AUDIO: u32 = 0;

const CONTROL: u32 = 1;

/// The worker of instance 0, with the ring of its responses. The instance declares no worker.
const WORKER: Caller = Caller {
    actor: 2,
    ring: 19,
    cells: 8,
    works: false,
};

/// An instance without a worker, no blocks, eight cells.
fn session(alloc: Global) -> Result<Shape, NoMemory>
    ensures { IfOk result IsSession }
{
    let inst = ShapeInst {
        worker: 1,
        works: false,
        replies: false,
    };
    Ok(Shape {
        blocks: 0,
        cells: 8,
        workers: 1,
        plan: Items::from_slice(alloc, &[0])?,
        insts: Items::from_slice(alloc, &[inst])?,
        actions: Items::new(alloc),
    })
}

/// A record without entries, with room for a call.
fn unbegun(alloc: Global, shape: &Shape) -> Result<JudgedLog, NoMemory>
    requires { IsSession shape.now }
    ensures followed { IfOk result (λ log. IsFollowed shape.now (entries_of log.log.items) log.follower) }
    ensures spare { IfOk result (λ log. 18 ≤ log.log.spare) }
{
    let mut log = JudgedLog::new(alloc, shape)?;
    log.reserve(18)?;
    Ok(log)
}

/// Makes the instance.
fn made(alloc: Global, decl: &Decl, log: &mut JudgedLog, shape: &Shape) -> Result<Made<Stock>, Fail>
    requires session { IsSession shape.now }
    requires followed { IsFollowed shape.now (entries_of log.old.log.items) log.old.follower }
    ensures { IfOk result (λ made. IsFollowed shape.now (entries_of log.new.log.items) log.new.follower) }
{
    let mut urids = Urids::new(alloc)?;
    let options = options_of(16);
    log.reserve(18)?;
    match make(
        &Stock, alloc, decl, 0, 48000, &options, &mut urids, CONTROL, log, shape,
    ) {
        Ok(made) => Ok(made),
        Err(_) => Err(Fail::new("not made")),
    }
}

/// All actors but control stop.
fn stop_others(log: &mut JudgedLog, shape: &Shape) -> Result<(), Halt>
    requires session { IsSession shape.now }
    requires followed { IsFollowed shape.now (entries_of log.old.log.items) log.old.follower }
    ensures { OnOk result (IsFollowed shape.now (entries_of log.new.log.items) log.new.follower) }
{
    let worker = Actor::Worker(1);
    let ring = Ring::ControlToWorker(1);
    mark_plain::<(), ()>(log, shape, Entry::stop(Actor::Audio))?;
    mark_plain::<(), ()>(log, shape, Entry::beat(1))?;
    mark_plain::<(), ()>(log, shape, Entry::send(Actor::Control, ring))?;
    mark_take::<(), ()>(log, shape, Entry::take(worker, ring))?;
    mark_plain::<(), ()>(log, shape, Entry::stop(worker))?;
    mark_plain::<(), ()>(log, shape, Entry::join())?;
    Ok(())
}

/// An instance that was made has its life up to the end of the record.
fn live(made: Made<Stock>, log: &mut JudgedLog, shape: &Shape) -> Result<(), Halt>
    requires session { IsSession shape.now }
    requires followed { IsFollowed shape.now (entries_of log.old.log.items) log.old.follower }
    ensures { OnOk result (IsFollowed shape.now (entries_of log.new.log.items) log.new.follower) }
{
    log.reserve(18)?;
    let (front, back) = activate(made, CONTROL, log, shape)?;
    stop_others(log, shape)?;
    log.reserve(18)?;
    let made = deactivate(front, back, CONTROL, log, shape)?;
    log.reserve(18)?;
    cleanup(made, CONTROL, log, shape)?;
    mark_plain::<(), ()>(log, shape, Entry::last())?;
    Ok(())
}

#[test]
fn an_instance_is_made_and_ended(rt: HostRuntime) -> Result<(), Fail> {
    let alloc = rt.alloc();
    let decl = declared(alloc, "urn:lv2fx:amp")?;
    let shape = session(alloc)?;
    let mut log = unbegun(alloc, &shape)?;
    let made = made(alloc, &decl, &mut log, &shape)?;
    assert!(&rt; live(made, &mut log, &shape).is_ok());
    assert!(&rt; log.has_ended());
    assert_eq!(&rt; log.len(), 15);
    Ok(())
}

/// Whether calls of the front aren't due.
fn is_front_early(
    alloc: Global,
    front: &mut FrontOf<Stock>,
    shape: &Shape,
) -> Result<bool, NoMemory>
    requires { IsSession shape.now }
    ensures { front.new.inst ≡ front.old.inst }
{
    let mut log = unbegun(alloc, shape)?;
    let response = respond(front, &[7], AUDIO, &mut log, shape);
    let mut log = unbegun(alloc, shape)?;
    let end = end_run(front, AUDIO, &mut log, shape);
    Ok(
        matches!(response, Err(Halt::Broken(Broken::Order)))
            && matches!(end, Err(Halt::Broken(Broken::Order))),
    )
}

/// Whether a call to work isn't due, nor one to restore beside runs.
fn is_attempting_early(
    alloc: Global,
    back: &mut BackOf<Stock>,
    from: &Props,
    shape: &Shape,
) -> Result<bool, NoMemory>
    requires { IsSession shape.now }
    ensures { back.new.inst ≡ back.old.inst }
{
    let mut responses: ArrayVec<Parcel, 64> = ArrayVec::new();
    let mut log = unbegun(alloc, shape)?;
    let worked = work(back, &[7], &mut responses, WORKER, &mut log, shape);
    let mut jobs: ArrayVec<Parcel, 64> = ArrayVec::new();
    let mut log = unbegun(alloc, shape)?;
    let restored = restore_safe(back, from, &mut jobs, WORKER, &mut log, shape);
    Ok(
        matches!(worked, Err(Halt::Broken(Broken::Order)))
            && matches!(restored, Err(Halt::Broken(Broken::Order))),
    )
}

/// Whether a call to save isn't due. Gives the state too.
fn is_save_early(
    alloc: Global,
    back: &BackOf<Stock>,
    shape: &Shape,
) -> Result<(bool, Props), NoMemory>
    requires { IsSession shape.now }
{
    let mut shelf = Shelf::with_room(alloc, 26)?;
    let mut log = unbegun(alloc, shape)?;
    let saved = save(back, &mut shelf, WORKER.actor, &mut log, shape);
    let early = matches!(saved, Err(Halt::Broken(Broken::Order)));
    Ok((early, shelf.finish()?))
}

/// Whether calls of both parts aren't due.
fn is_both_early(
    alloc: Global,
    mut front: FrontOf<Stock>,
    mut back: BackOf<Stock>,
    from: &Props,
    shape: &Shape,
) -> Result<bool, NoMemory>
    requires session { IsSession shape.now }
    requires same_inst { front.inst ≡ back.inst }
{
    let mut log = unbegun(alloc, shape)?;
    let restored = restore(
        &Stock, &mut front, &mut back, from, CONTROL, &mut log, shape,
    );
    let mut log = unbegun(alloc, shape)?;
    let ended = deactivate(front, back, CONTROL, &mut log, shape);
    Ok(
        matches!(restored, Err(Halt::Broken(Broken::Order)))
            && matches!(ended, Err(Halt::Broken(Broken::Order))),
    )
}

#[test]
fn a_call_that_is_not_due_is_refused(rt: HostRuntime) -> Result<(), Fail> {
    let alloc = rt.alloc();
    let decl = declared(alloc, "urn:lv2fx:keep")?;
    let shape = session(alloc)?;
    let (mut front, mut back) = active(alloc, &decl)?;
    let (early, from) = is_save_early(alloc, &back, &shape)?;
    assert!(&rt; early);
    assert!(&rt; is_front_early(alloc, &mut front, &shape)?);
    assert!(&rt; is_attempting_early(alloc, &mut back, &from, &shape)?);
    assert!(&rt; is_both_early(alloc, front, back, &from, &shape)?);
    Ok(())
}
