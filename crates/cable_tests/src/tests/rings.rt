ghost use Rattle.std.specs.Prelude.{◌≡◌, ◌<◌, ◌+◌, IfOk};
ghost use Rattle.cable_ring.specs.Tables.{table_of, plan_at};
ghost use Rattle.cable_tests.specs.Ready.{IsReady, one_ring};

use cable_ring::{Cable, Pass, RingSpec};
use lv_base::NoMemory;
use std::alloc::Global;
use std::process::Abort;
use std::test::Fail;

// A cable with one cell in its one ring, and the tokens of its sender and its taker.
pub fn one_cell(alloc: Global) -> Result<(Cable<u64>, Pass<u64>, Pass<u64>), NoMemory>
    ensures tokens { IfOk result (λ made. IsReady (table_of made.0) 0 0 made.1 × IsReady (table_of made.0) 1 0 made.2) }
    ensures plan { IfOk result (λ made. plan_at made.0 ≡ one_ring) }
{
    let rings = [RingSpec { from: 0, to: 1 }];
    let (cable, mut passes) = Cable::new(alloc, 0, 1, &rings, 2)?;
    let taker = passes.pop().unwrap();
    let sender = passes.pop().unwrap();
    Ok((cable, sender, taker))
}

// Closes the cable: what is left in its ring, and the next ticket.
pub fn closed(
    alloc: Global,
    cable: Cable<u64>,
    sender: Pass<u64>,
    taker: Pass<u64>,
) -> Result<(Vec<u64>, u64), NoMemory>
    requires { (sender.table ≡ table_of cable) × (sender.actor ≡ 0) × (taker.table ≡ table_of cable) × (taker.actor ≡ 1) × (plan_at cable ≡ one_ring) }
{
    let mut passes = Vec::with_capacity(alloc, 2)?;
    passes.push(sender)?;
    passes.push(taker)?;
    match cable.close(passes) {
        Ok(mut left) => Ok((left.rings.pop().unwrap_or(Vec::new(alloc)), left.next)),
        Err((no_memory, _, _)) => Err(no_memory),
    }
}

// A send by an actor that has done `done` things: its ticket, and where the ring was full the message and how many were seen taken.
fn put(
    cable: &Cable<u64>,
    pass: &mut Pass<u64>,
    done: u64,
    message: u64,
) -> (u64, Option<(u64, u64)>)
    requires { IsReady (table_of cable.now) 0 done pass.old × (done < 100) }
    ensures { IsReady (table_of cable.now) 0 (done + 1) pass.new }
{
    match cable.send(pass, 0, message) {
        Ok(ticket) => (ticket, None),
        Err(full) => (full.ticket, Some((full.message, full.seen))),
    }
}

fn see(cable: &Cable<u64>, pass: &mut Pass<u64>, done: u64) -> (u64, u64)
    requires { IsReady (table_of cable.now) 1 done pass.old × (done < 100) }
    ensures { IsReady (table_of cable.now) 1 (done + 1) pass.new }
{
    cable.look(pass, 0)
}

fn get(cable: &Cable<u64>, pass: &mut Pass<u64>, done: u64) -> Option<(u64, u64)>
    requires { IsReady (table_of cable.now) 1 done pass.old × (done < 100) }
    ensures { IsReady (table_of cable.now) 1 (done + 1) pass.new }
{
    cable.take(pass, 0)
}

#[test]
fn a_ring_of_one_cell_takes_one_message(rt: HostRuntime) -> Result<(), Fail> {
    let (cable, mut sender, mut taker) = one_cell(rt.alloc())?;
    assert!(rt; put(&cable, &mut sender, 0, 7) == (0, None));
    assert!(rt; put(&cable, &mut sender, 1, 8) == (1, Some((8, 0))));
    assert!(rt; see(&cable, &mut taker, 0) == (1, 2));
    assert!(rt; get(&cable, &mut taker, 1) == Some((7, 3)));
    assert!(rt; get(&cable, &mut taker, 2).is_none());
    assert!(rt; put(&cable, &mut sender, 2, 8) == (4, None));
    let (left, next) = closed(rt.alloc(), cable, sender, taker)?;
    assert!(rt; left.as_slice() == [8].as_slice());
    assert!(rt; next == 5);
    Ok(())
}
