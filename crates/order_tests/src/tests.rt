ghost use Rattle.std.specs.Prelude.{◌≡◌, ◌<◌, IfOk};
ghost use Rattle.order_base.specs.Limits.{KeepsLimits};
ghost use Rattle.order_tests.specs.Tracked.{IsTracked};

use lv_base::{Items, NoMemory};
use record_law::{Shape, ShapeInst};
use record_order::{Queues, Tracker};
use record_terms::is_kind;
use std::alloc::Global;
use std::test::Fail;
use step_law::{Entry, Kind};
use step_record::read;

// Two instances that schedule no work, and two blocks.
fn plain_session(alloc: Global) -> Result<Shape, NoMemory>
    ensures limits { IfOk result (λ shape. KeepsLimits shape) }
    ensures workers { IfOk result (λ shape. shape.workers ≡ 1) }
    ensures cells { IfOk result (λ shape. shape.cells ≡ 4) }
{
    let inst = inst_of(false);
    Ok(Shape {
        blocks: 2,
        cells: 4,
        workers: 1,
        plan: Items::from_slice(alloc, &[0, 1])?,
        insts: Items::from_slice(alloc, &[inst, inst])?,
        actions: Items::new(alloc),
    })
}

// One instance that schedules work.
fn working_session(alloc: Global) -> Result<Shape, NoMemory>
    ensures limits { IfOk result (λ shape. KeepsLimits shape) }
    ensures workers { IfOk result (λ shape. shape.workers ≡ 1) }
    ensures cells { IfOk result (λ shape. shape.cells ≡ 4) }
{
    Ok(Shape {
        blocks: 2,
        cells: 4,
        workers: 1,
        plan: Items::from_slice(alloc, &[0])?,
        insts: Items::from_slice(alloc, &[inst_of(true)])?,
        actions: Items::new(alloc),
    })
}

fn inst_of(works: bool) -> ShapeInst
    ensures { result.worker ≡ 1 }
{
    ShapeInst {
        worker: 1,
        works,
        replies: false,
    }
}

// How many entries of a record's text may come, from the first on.
fn counted(alloc: Global, shape: &Shape, text: &[u8]) -> Result<usize, Fail>
    requires limits { KeepsLimits shape.now }
    requires workers { shape.now.workers ≡ 1 }
    requires cells { shape.now.cells ≡ 4 }
{
    let record = read(alloc, text)?;
    Ok(accepted(alloc, shape, record.entries())?)
}

fn accepted(alloc: Global, shape: &Shape, steps: &[Entry]) -> Result<usize, NoMemory>
    requires limits { KeepsLimits shape.now }
    requires workers { shape.now.workers ≡ 1 }
    requires cells { shape.now.cells ≡ 4 }
{
    let mut tracker = Tracker::new(alloc, shape)?;
    let mut queues = Queues::new(alloc, shape)?;
    Ok(accepted_from(&mut tracker, &mut queues, shape, steps))
}

fn accepted_from(
    tracker: &mut Tracker,
    queues: &mut Queues,
    shape: &Shape,
    steps: &[Entry],
) -> usize
    requires limits { KeepsLimits shape.now }
    requires workers { shape.now.workers ≡ 1 }
    requires tracked { IsTracked shape.now tracker.old queues.old }
{
    for (count, step) in steps.iter().enumerate() {
        if !may_come(tracker, queues, shape, *step) {
            return count;
        }
    }
    steps.len()
}

fn may_come(tracker: &mut Tracker, queues: &mut Queues, shape: &Shape, entry: Entry) -> bool
    requires limits { KeepsLimits shape.now }
    requires workers { shape.now.workers ≡ 1 }
    requires tracked { IsTracked shape.now tracker.old queues.old }
    ensures { IsTracked shape.now tracker.new queues.new }
{
    let rings = 18 + 3 * shape.insts.len();
    if entry.actor > 2 || entry.a as usize >= rings {
        return false;
    }
    let brought = queues.brought(entry);
    let Some(about) = tracker.step(shape, entry, brought) else {
        return false;
    };
    let waiting = queues.waiting(entry.a);
    if waiting > 5 || is_kind(Kind::Take, entry) && waiting == 0 {
        return false;
    }
    queues.note(entry, about);
    true
}

// The record of a session without jobs may come as it stands, to its end.
#[test]
fn plain_record(rt: HostRuntime) -> Result<(), Fail> {
    let shape = plain_session(rt.alloc())?;
    assert_eq!(rt; counted(rt.alloc(), &shape, PLAIN)?, 37);
    Ok(())
}

// A job is worked while its run goes on, and its response is delivered.
#[test]
fn working_record(rt: HostRuntime) -> Result<(), Fail> {
    let shape = working_session(rt.alloc())?;
    assert_eq!(rt; counted(rt.alloc(), &shape, WORKING)?, 20);
    Ok(())
}

// Without the look at what control sent, the run of the first instance may not come.
#[test]
fn look_left_out(rt: HostRuntime) -> Result<(), Fail> {
    let shape = plain_session(rt.alloc())?;
    assert_eq!(rt; counted(rt.alloc(), &shape, WITHOUT_LOOK)?, 9);
    Ok(())
}

const PLAIN: &[u8] =
    b"lv2fx-record 1\nC begin make 0\nC end make 0\nC begin make 1\nC end make 1\nC begin activate 0\nC end activate 0\nC begin activate 1\nC end activate 1\nA block 0\nA look CA 0\nA begin run 0\nA end run 0\nA begin run 1\nA end run 1\nA done 0\nA block 1\nA look CA 0\nA begin run 0\nA end run 0\nA begin run 1\nA end run 1\nA done 1\nA stop\nC beat 3\nC send CW1\nW1 take CW1\nW1 stop\nC join\nC begin deactivate 0\nC end deactivate 0\nC begin deactivate 1\nC end deactivate 1\nC begin cleanup 0\nC end cleanup 0\nC begin cleanup 1\nC end cleanup 1\nend\n";

const WORKING: &[u8] =
    b"lv2fx-record 1\nC begin make 0\nC end make 0\nC begin activate 0\nC end activate 0\nA block 0\nA look CA 0\nA begin run 0\nA send J0\nA end run 0\nW1 take J0\nW1 begin work 0\nW1 send R0\nW1 end work 0\nA look R0 1\nA take R0\nA begin response 0\nA end response 0\nA begin end_run 0\nA end end_run 0\nA done 0\n";

const WITHOUT_LOOK: &[u8] =
    b"lv2fx-record 1\nC begin make 0\nC end make 0\nC begin make 1\nC end make 1\nC begin activate 0\nC end activate 0\nC begin activate 1\nC end activate 1\nA block 0\nA begin run 0\n";
