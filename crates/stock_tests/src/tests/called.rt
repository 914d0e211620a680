//! All calls of an instance but its run: their entries in the log, in order.
ghost use Rattle.std.specs.Prelude.{◌≡◌};

use super::bench::active;
use super::declared::declared;
use arrayvec::ArrayVec;
use instance_class::{BackOf, FrontOf};
use list_calls::{
    Caller, cleanup, deactivate, end_run, respond, restore, restore_safe, save, work,
};
use lv_base::NoMemory;
use state_store::{Props, Shelf};
use std::alloc::Global;
use std::process::Abort;
use std::test::Fail;
use step_record::{Call, Kind, Log, Parcel};
use stock_codes::Stock;

const CONTROL: u32 = 1;

/// The worker of instance 0, with the ring of its responses.
const WORKER: Caller = Caller {
    actor: 2,
    ring: 19,
    cells: 4,
    works: true,
};

/// Calls of the front.
fn call_front(front: &mut FrontOf<Stock>, log: &mut Log) -> Result<(), NoMemory>
    ensures { front.new.inst ≡ front.old.inst }
{
    log.grow(2)?;
    respond(front, &[7], 0, log);
    log.grow(2)?;
    end_run(front, 0, log);
    Ok(())
}

/// Calls of the back: it works, and its state goes out and back.
fn call_back(alloc: Global, back: &mut BackOf<Stock>, log: &mut Log) -> Result<Props, NoMemory>
    ensures { back.new.inst ≡ back.old.inst }
{
    let mut list: ArrayVec<Parcel, 64> = ArrayVec::new();
    let mut shelf = Shelf::with_room(alloc, 26)?;
    log.grow(18)?;
    let _ = work(back, &[7], &mut list, WORKER, log);
    log.grow(2)?;
    let _ = save(back, &mut shelf, WORKER.actor, log);
    let from = shelf.finish()?;
    let mut jobs: ArrayVec<Parcel, 64> = ArrayVec::new();
    log.grow(18)?;
    let _ = restore_safe(back, &from, &mut jobs, WORKER, log);
    Ok(from)
}

/// Its last calls.
fn call_both(
    mut front: FrontOf<Stock>,
    mut back: BackOf<Stock>,
    from: &Props,
    log: &mut Log,
) -> Result<(), NoMemory>
    requires { front.inst ≡ back.inst }
{
    log.grow(2)?;
    let _ = restore(&Stock, &mut front, &mut back, from, CONTROL, log);
    log.grow(2)?;
    let made = deactivate(front, back, CONTROL, log);
    log.grow(2)?;
    cleanup(made, CONTROL, log);
    Ok(())
}

/// The call at a place has its two entries.
fn assert_called<R: Abort>(rt: &R, log: &Log, place: u8, call: Call) {
    let marks = log.items();
    let begin = 2 * place as usize;
    let number = call as u32;
    assert!(rt;
        marks
            .get(begin)
            .is_some_and(|it| it.1.kind == Kind::Begin && it.1.a == number)
    );
    assert!(rt;
        marks
            .get(begin + 1)
            .is_some_and(|it| it.1.kind == Kind::End && it.1.a == number)
    );
}

#[test]
fn keep_is_called(rt: HostRuntime) -> Result<(), Fail> {
    let alloc = rt.alloc();
    let decl = declared(alloc, "urn:lv2fx:keep")?;
    let (mut front, mut back) = active(alloc, &decl)?;
    let mut log = Log::with_room(alloc, 2)?;
    call_front(&mut front, &mut log)?;
    let from = call_back(alloc, &mut back, &mut log)?;
    call_both(front, back, &from, &mut log)?;
    assert_eq!(&rt; log.items().len(), 16);
    assert_called(&rt, &log, 0, Call::Response);
    assert_called(&rt, &log, 4, Call::RestoreSafe);
    assert_called(&rt, &log, 7, Call::Cleanup);
    Ok(())
}
