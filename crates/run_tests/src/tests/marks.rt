ghost use Rattle.std.specs.Prelude.{◌≡◌, ◌≤◌, ◌+◌};
ghost use Rattle.step_record.specs.Count.{tickets_left};

use std::process::Abort;
use std::test::Fail;
use step_record::{Actor, Call, Count, Entry, Log, Marks, Parcel, Pen};

// A call on instance 0 that begins and ends.
fn mark_call<K: Marks>(marks: &mut K, call: Call)
    requires actor { K.actor_of marks.old ≡ 0 }
    requires room { K.can_mark marks.old }
{
    let _ = marks.mark(Entry::begin(Actor::Audio, call, 0));
}

// Marks two entries of audio.
fn mark_block(tickets: &mut Count, log: &mut Log) -> u64
    requires tickets { 2 ≤ tickets_left tickets.old }
    requires room { 2 ≤ log.old.spare }
    ensures fewer { tickets_left tickets.new + 2 ≡ tickets_left tickets.old }
    ensures less { log.new.spare + 2 ≡ log.old.spare }
{
    let mut pen = Pen::new(0, tickets, log);
    let _ = pen.mark(Entry::block(7));
    pen.mark(Entry::done(7))
}

fn assert_marks<R: Abort>(rt: &R, log: &Log) {
    let marks = log.items();
    assert!(rt; marks.len() == 2);
    assert!(rt; marks[0].0 == 5 && marks[0].1 == Entry::block(7));
    assert!(rt; marks[1].0 == 6 && marks[1].1 == Entry::done(7));
}

#[test]
fn a_pen_marks_with_rising_tickets(rt: HostRuntime) -> Result<(), Fail> {
    let mut tickets = Count::from_number(5);
    let mut log = Log::with_room(rt.alloc(), 1)?;
    log.grow(3)?;
    let last = mark_block(&mut tickets, &mut log);
    assert!(rt; last == 6);
    assert_marks(&rt, &log);
    Ok(())
}

#[test]
fn a_pen_marks_through_its_bound(rt: HostRuntime) -> Result<(), Fail> {
    let mut tickets = Count::from_number(0);
    let mut log = Log::with_room(rt.alloc(), 1)?;
    let mut pen = Pen::new(0, &mut tickets, &mut log);
    mark_call(&mut pen, Call::Run);
    assert!(rt; log.items().len() == 1 && log.spare() == 0);
    Ok(())
}

#[test]
fn a_parcel_holds_256_bytes(rt: HostRuntime) {
    let parcel = Parcel::new(&[7; 256]);
    assert!(rt; matches!(&parcel, Some(p) if p.as_slice().len() == 256));
    let longer = Parcel::new(&[7; 257]);
    assert!(rt; longer.is_none());
}
