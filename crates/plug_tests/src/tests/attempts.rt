ghost use Rattle.std.specs.Prelude.{◌≤◌};

use arrayvec::ArrayVec;
use lv_base::NoMemory;
use plug_api::{Respond, Sched};
use std::alloc::Global;
use std::test::Fail;
use step_record::{Count, Entry, Kind, Log, Parcel};
use worker_ring::{AnswerRespond, AnswerSched, Attempt, ListSched};

/// The ring of the jobs of instance 0.
const JOBS: u32 = 18;

const BODY: [u8; 300] = [7; 300];

/// The first `size` bytes of a body.
fn body(size: usize) -> &'static [u8] {
    &BODY[..size.min(300)]
}

/// The letter of an attempt's kind.
fn letter(kind: Kind) -> u8 {
    match kind {
        Kind::Send => b's',
        Kind::Full => b'f',
        Kind::Long => b'l',
        _ => b'?',
    }
}

/// Whether the entries tell of these attempts by actor 0 on the ring, a letter for each.
fn tell(entries: &[(u64, Entry)], letters: &[u8]) -> bool {
    entries.len() == letters.len()
        && entries.iter().zip(letters).all(|((_, entry), wanted)| {
            letter(entry.kind) == *wanted && (entry.actor, entry.a, entry.b) == (0, JOBS, 0)
        })
}

/// Makes attempts with bodies of these sizes. It gives the answers.
fn try_all<S: Sched>(alloc: Global, sched: &mut S, sizes: &[usize]) -> Result<Vec<u8>, NoMemory> {
    let mut answers = Vec::with_capacity(alloc, sizes.len())?;
    for size in sizes {
        let answer = sched.schedule_work(body(*size));
        answers.push(answer)?;
    }
    Ok(answers)
}

/// The same on a list where so many may wait.
fn on_list(alloc: Global, cells: u32, log: &mut Log, sizes: &[usize]) -> Result<Vec<u8>, NoMemory>
    requires some_cells { 1 ≤ cells }
    requires cells { cells ≤ 64 }
    requires spare { 18 ≤ log.old.spare }
{
    let mut list: ArrayVec<Parcel, 64> = ArrayVec::new();
    let mut tickets = Count::from_number(0);
    let mut sched = ListSched::new(&mut list, cells, 0, &mut tickets, log, JOBS, true);
    try_all(alloc, &mut sched, sizes)
}

#[test]
fn two_cells_take_two(rt: HostRuntime) -> Result<(), Fail> {
    let mut log = Log::with_room(rt.alloc(), 18)?;
    let answers = on_list(rt.alloc(), 2, &mut log, &[8, 8, 8])?;
    assert!(rt; answers.as_slice() == [0, 0, 2].as_slice());
    assert!(rt; tell(log.items(), b"ssf"));
    Ok(())
}

#[test]
fn a_body_of_257_bytes_is_too_long(rt: HostRuntime) -> Result<(), Fail> {
    let mut log = Log::with_room(rt.alloc(), 18)?;
    let answers = on_list(rt.alloc(), 64, &mut log, &[256, 257])?;
    assert!(rt; answers.as_slice() == [0, 2].as_slice());
    assert!(rt; tell(log.items(), b"sl"));
    Ok(())
}

#[test]
fn the_17th_has_no_entry(rt: HostRuntime) -> Result<(), Fail> {
    let mut log = Log::with_room(rt.alloc(), 18)?;
    let answers = on_list(rt.alloc(), 64, &mut log, &[8; 17])?;
    assert!(rt;
        answers.as_slice() == [0, 0, 0, 0, 0, 0, 0, 0, 0, 0, 0, 0, 0, 0, 0, 0, 1].as_slice()
    );
    assert!(rt; tell(log.items(), b"ssssssssssssssss"));
    Ok(())
}

/// Whether these attempts were kept: one of 8 bytes that was sent, one that was too long, one of 8 bytes that found no room, and one that has
/// no recorded answer.
fn are_kept(attempts: &[Attempt]) -> bool {
    let answers = [0, 2, 2, 1];
    let same = attempts
        .iter()
        .zip(&answers)
        .all(|(attempt, answer)| attempt.answer == *answer);
    let whole = attempts
        .iter()
        .filter(|attempt| attempt.body.is_some())
        .count();
    attempts.len() == 4 && same && whole == 3
}

/// Makes attempts that are answered by 0, 2 and 2, and tells whether all was as it is due.
fn by_answers(alloc: Global, log: &mut Log) -> Result<bool, NoMemory>
    requires { 18 ≤ log.old.spare }
{
    let mut tickets = Count::from_number(0);
    let mut sched = AnswerSched::new(&[0, 2, 2], 0, &mut tickets, log, JOBS, true);
    let first = try_all(alloc, &mut sched, &[8, 257, 8])?;
    let noted = sched.surplus();
    let last = sched.schedule_work(body(8));
    let told = first.as_slice() == [0, 2, 2].as_slice() && last == 1;
    Ok(told && !noted && sched.surplus() && are_kept(sched.attempts()))
}

#[test]
fn recorded_answers(rt: HostRuntime) -> Result<(), Fail> {
    let mut log = Log::with_room(rt.alloc(), 18)?;
    let due = by_answers(rt.alloc(), &mut log)?;
    assert!(rt; due);
    assert!(rt; tell(log.items(), b"slf"));
    Ok(())
}

/// Attempts to respond without a worker, and tells whether that is answered by 1 and not noted.
fn without_worker(log: &mut Log) -> bool
    requires { 18 ≤ log.old.spare }
{
    let mut tickets = Count::from_number(0);
    let mut answer = AnswerRespond::new(&[], 0, &mut tickets, log, JOBS, false);
    answer.respond(body(8)) == 1 && !answer.surplus() && answer.attempts().len() == 1
}

#[test]
fn no_worker(rt: HostRuntime) -> Result<(), Fail> {
    let mut log = Log::with_room(rt.alloc(), 18)?;
    assert!(rt; without_worker(&mut log));
    assert!(rt; log.items().is_empty());
    Ok(())
}
