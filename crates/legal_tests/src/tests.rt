ghost use Rattle.std.specs.Prelude.{◌≤◌, IfOk, OnOk};
ghost use Rattle.record_terms.specs.Session.{IsSession};
ghost use Rattle.judged_log.specs.Followed.{IsFollowed, entries_of};

use judged_log::{Halt, JudgedLog, followed_is_lawful};
use lv_base::{Items, NoMemory};
use record_law::{Shape, ShapeInst};
use record_legal::{Illegal, legal};
use std::alloc::Global;
use std::process::Abort;
use std::test::Fail;
use step_record::{Entry, Kind, Record, read};
use told_entries::{mark_notice, mark_plain, mark_take};

/// Three blocks of a plug-in that schedules a job in each, on one thread.
const JOBS: &str = "lv2fx-record 1
C begin make 0
C end make 0
C begin activate 0
C end activate 0
A block 0
A look CA 0
A begin run 0
A send J0
A end run 0
W1 take J0
W1 begin work 0
W1 send R0
W1 end work 0
A look R0 1
A take R0
A begin response 0
A end response 0
A begin end_run 0
A end end_run 0
A done 0
A block 1
A look CA 0
A begin run 0
A send J0
A end run 0
W1 take J0
W1 begin work 0
W1 send R0
W1 end work 0
A look R0 1
A take R0
A begin response 0
A end response 0
A begin end_run 0
A end end_run 0
A done 1
A block 2
A look CA 0
A begin run 0
A send J0
A end run 0
W1 take J0
W1 begin work 0
W1 send R0
W1 end work 0
A look R0 1
A take R0
A begin response 0
A end response 0
A begin end_run 0
A end end_run 0
A done 2
A stop
C beat 4
C send CW1
W1 take CW1
W1 stop
C join
C begin deactivate 0
C end deactivate 0
C begin cleanup 0
C end cleanup 0
end
";

/// Two blocks of it, with a worker that works while audio goes on: no single thread makes this record.
const BESIDE: &str = "lv2fx-record 1
C begin make 0
C end make 0
C begin activate 0
C end activate 0
A block 0
A look CA 0
A begin run 0
A send J0
W1 take J0
W1 begin work 0
A end run 0
A look R0 0
A begin end_run 0
A end end_run 0
A done 0
A block 1
A look CA 0
A begin run 0
W1 send R0
A send J0
W1 end work 0
A end run 0
W1 take J0
A look R0 1
A take R0
A begin response 0
W1 begin work 0
A end response 0
W1 send R0
A begin end_run 0
W1 end work 0
A end end_run 0
A done 1
A stop
C beat 3
C send CW1
W1 take CW1
W1 stop
C join
C begin deactivate 0
C end deactivate 0
C begin cleanup 0
C end cleanup 0
end
";

/// A delivery of block 0, and the end of its run.
const DELIVERED: &str = "A take R0
A begin response 0
A end response 0
A begin end_run 0
A end end_run 0
A done 0
";

/// The delivery after the end of the run.
const LATE: &str = "A begin end_run 0
A end end_run 0
A take R0
A begin response 0
A end response 0
A done 0
";

/// A plug-in with a worker, so many blocks, eight cells.
fn session(alloc: Global, blocks: u32) -> Result<Shape, NoMemory>
    requires { blocks ≤ 65536 }
    ensures { IfOk result IsSession }
{
    let inst = ShapeInst {
        worker: 1,
        works: true,
        replies: false,
    };
    Ok(Shape {
        blocks,
        cells: 8,
        workers: 1,
        plan: Items::from_slice(alloc, &[0])?,
        insts: Items::from_slice(alloc, &[inst])?,
        actions: Items::new(alloc),
    })
}

/// The verdict on a record: the line and the rule of its first violation.
fn assert_verdict(
    rt: &impl Abort,
    alloc: Global,
    blocks: u32,
    text: &str,
    wanted: &str,
) -> Result<(), Fail>
    requires { blocks ≤ 65536 }
{
    let shape = session(alloc, blocks)?;
    let steps = read(alloc, text.as_bytes())?;
    let verdict = match legal(alloc, &shape, &steps) {
        Ok(()) => String::from_str(alloc, "lawful")?,
        Err(Illegal::Broken { line, rule }) => format!(in alloc; "{line} {rule:?}")?,
        Err(Illegal::NoMemory) => String::from_str(alloc, "no memory")?,
    };
    assert!(rt; verdict.as_str() == wanted, "{verdict}, not {wanted}");
    Ok(())
}

#[test]
fn records_are_lawful(rt: HostRuntime) -> Result<(), Fail> {
    assert_verdict(&rt, rt.alloc(), 3, JOBS, "lawful")?;
    assert_verdict(&rt, rt.alloc(), 2, BESIDE, "lawful")
}

#[test]
fn a_delivery_comes_before_the_end_of_the_run(rt: HostRuntime) -> Result<(), Fail> {
    let late = JOBS.replace(rt.alloc(), DELIVERED, LATE)?;
    assert_verdict(&rt, rt.alloc(), 3, late.as_str(), "16 Order")
}

#[test]
fn a_record_has_an_end(rt: HostRuntime) -> Result<(), Fail> {
    let open = JOBS.replace(rt.alloc(), "cleanup 0\nend\n", "cleanup 0\n")?;
    assert_verdict(&rt, rt.alloc(), 3, open.as_str(), "64 End")
}

#[test]
fn looks_and_takes_are_bounded(rt: HostRuntime) -> Result<(), Fail> {
    let blind = JOBS.replace(
        rt.alloc(),
        "A look R0 1\nA take R0\n",
        "A look R0 0\nA take R0\n",
    )?;
    assert_verdict(&rt, rt.alloc(), 3, blind.as_str(), "15 Look")?;
    let idle = JOBS.replace(rt.alloc(), "W1 send R0\n", "")?;
    assert_verdict(&rt, rt.alloc(), 3, idle.as_str(), "15 Ring")
}

/// A log that took all entries of a record, one after the other.
fn taken(alloc: Global, shape: &Shape, steps: &Record) -> Result<JudgedLog, Fail>
    requires { IsSession shape.now }
{
    let mut log = JudgedLog::new(alloc, shape)?;
    for entry in steps.entries() {
        if log.mark(shape, *entry).is_err() {
            return Err(Fail::new("refused"));
        }
    }
    Ok(log)
}

#[test]
fn a_log_takes_a_lawful_record(rt: HostRuntime) -> Result<(), Fail> {
    let alloc = rt.alloc();
    let shape = session(alloc, 3)?;
    let steps = read(alloc, JOBS.as_bytes())?;
    let log = taken(alloc, &shape, &steps)?;
    let made = log.to_record(alloc)?;
    assert!(&rt; log.has_ended());
    assert_eq!(&rt; made.entries().len(), steps.entries().len());
    followed_is_lawful();
    Ok(())
}

/// Marks an entry by its form: a take, one of a call or about a body, or one that carries nothing.
fn mark_told(log: &mut JudgedLog, shape: &Shape, entry: Entry) -> Result<(), Halt>
    requires session { IsSession shape.now }
    requires followed { IsFollowed shape.now (entries_of log.old.log.items) log.old.follower }
    ensures { OnOk result (IsFollowed shape.now (entries_of log.new.log.items) log.new.follower) }
{
    match entry.kind {
        Kind::Take => mark_take::<(), ()>(log, shape, entry)?,
        Kind::Begin | Kind::End | Kind::Send => log.mark(shape, entry)?,
        _ => mark_plain::<(), ()>(log, shape, entry)?,
    };
    Ok(())
}

/// Whether a log takes all entries of a record, each by its form, up to its end.
fn are_told(alloc: Global, shape: &Shape, steps: &Record) -> Result<bool, NoMemory>
    requires { IsSession shape.now }
{
    let mut log = JudgedLog::new(alloc, shape)?;
    for entry in steps.entries() {
        if mark_told(&mut log, shape, *entry).is_err() {
            return Ok(false);
        }
    }
    Ok(log.has_ended())
}

#[test]
fn entries_are_told_by_their_form(rt: HostRuntime) -> Result<(), Fail> {
    let alloc = rt.alloc();
    let shape = session(alloc, 3)?;
    let steps = read(alloc, JOBS.as_bytes())?;
    assert!(&rt; are_told(alloc, &shape, &steps)?);
    Ok(())
}

/// Whether the first entry of a record, which begins a call, is astray as one of another form.
fn is_begin_astray(alloc: Global, shape: &Shape, begin: Entry) -> Result<bool, NoMemory>
    requires { IsSession shape.now }
{
    let mut log = JudgedLog::new(alloc, shape)?;
    let take = mark_take::<(), ()>(&mut log, shape, begin);
    let mut log = JudgedLog::new(alloc, shape)?;
    let notice = mark_notice::<(), ()>(&mut log, shape, begin, false);
    let mut log = JudgedLog::new(alloc, shape)?;
    let plain = mark_plain::<(), ()>(&mut log, shape, begin);
    Ok(
        matches!(take, Err(Halt::Astray))
            && matches!(notice, Err(Halt::Astray))
            && matches!(plain, Err(Halt::Astray)),
    )
}

#[test]
fn a_call_is_no_entry_outside_of_calls(rt: HostRuntime) -> Result<(), Fail> {
    let alloc = rt.alloc();
    let shape = session(alloc, 3)?;
    let steps = read(alloc, JOBS.as_bytes())?;
    let Some(begin) = steps.entries().first() else {
        return Err(Fail::new("no entries"));
    };
    assert!(&rt; is_begin_astray(alloc, &shape, *begin)?);
    Ok(())
}
