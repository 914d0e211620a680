ghost use Rattle.std.specs.Prelude.{◌≡◌, ◌^◌, ◌<◌, ◌+◌, IfOk};
ghost use Rattle.cable_ring.specs.Tables.{table_of};
ghost use Rattle.cable_tests.specs.Ready.{IsReady};

use super::rings::{closed, one_cell};
use cable_ring::{Cable, Pass};
use std::process::Abort;
use std::sync::Wait;
use std::test::Fail;
use std::thread;
use std::thread::Threads;

const COUNT: u64 = 100_000;

// Sends a number, where there is room for it.
fn offer(cable: &Cable<u64>, pass: &mut Pass<u64>, number: u64) -> bool
    requires { IsReady (table_of cable.now) 0 (2 ^ 56) pass.old }
    ensures { IsReady (table_of cable.now) 0 (2 ^ 56) pass.new }
{
    if pass.left() == 0 {
        return false;
    }
    cable.send(pass, 0, number).is_ok()
}

// Looks, and takes a number, where there is one.
fn receive(cable: &Cable<u64>, pass: &mut Pass<u64>) -> Option<u64>
    requires { IsReady (table_of cable.now) 1 (2 ^ 56) pass.old }
    ensures { IsReady (table_of cable.now) 1 (2 ^ 56) pass.new }
{
    if pass.left() < 2 {
        return None;
    }
    cable.look(pass, 0);
    match cable.take(pass, 0) {
        Some((number, _)) => Some(number),
        None => None,
    }
}

// Sends the numbers below COUNT, in order.
fn send_all<R: Wait>(rt: &R, cable: &Cable<u64>, mut pass: Pass<u64>) -> Pass<u64>
    requires { IsReady (table_of cable.now) 0 (2 ^ 56) pass }
    ensures { IsReady (table_of cable.now) 0 (2 ^ 56) result }
{
    let mut next = 0;
    for _ in rt.forever() {
        if next >= COUNT {
            break;
        }
        if offer(cable, &mut pass, next) {
            next += 1;
        } else {
            thread::yield_now();
        }
    }
    pass
}

// Takes COUNT numbers, or until one isn't the next: how many were.
fn take_all<R: Wait>(rt: &R, cable: &Cable<u64>, mut pass: Pass<u64>) -> (Pass<u64>, u64)
    requires { IsReady (table_of cable.now) 1 (2 ^ 56) pass }
    ensures { IsReady (table_of cable.now) 1 (2 ^ 56) result.0 }
{
    let mut next = 0;
    for _ in rt.forever() {
        if next >= COUNT {
            break;
        }
        match receive(cable, &mut pass) {
            Some(number) if number == next => next += 1,
            Some(_) => break,
            None => thread::yield_now(),
        }
    }
    (pass, next)
}

#[test]
fn numbers_pass_from_thread_to_thread_in_order(rt: HostRuntime) -> Result<(), Fail> {
    let (cable, sender, taker) = one_cell(rt.alloc())?;
    let shared = &cable;
    let (sender, (taker, count)) = thread::join(
        &rt,
        move ||
            requires { IsReady (table_of shared.now) 0 (2 ^ 56) sender }
            ensures { IsReady (table_of shared.entry.now) 0 (2 ^ 56) result }
        { send_all(&rt, shared, sender) },
        move ||
            requires { IsReady (table_of shared.now) 1 (2 ^ 56) taker }
            ensures { IsReady (table_of shared.entry.now) 1 (2 ^ 56) result.0 }
        { take_all(&rt, shared, taker) },
    );
    assert!(rt; count == COUNT);
    let (left, next) = closed(rt.alloc(), cable, sender, taker)?;
    assert!(rt; left.is_empty());
    assert!(rt; next >= 3 * COUNT);
    Ok(())
}
