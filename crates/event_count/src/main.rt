//! Writes or reads a sequence of 1,000 events, each an Int: `event_count WHAT ROUNDS`, a hundred times a round, so that a benchmark can
//! time it. It ends with a number of what it did, so that nothing of it can be left out.
#![tactic(auto)]

ghost use Rattle.std.specs.Prelude.{OnOk};
ghost use Rattle.event_count.specs.Awaiting.{AwaitsEvent};

use anyhow::{Context, Result, bail};
use atom_core::{AtomView, events_of, read};
use atom_forge::{Forge, NoRoom};
use std::alloc::Global;
use std::env;
use std::rt::Env;

const EVENTS: i32 = 1000;

const TIMES: u32 = 100;

/// A header, a unit and a padding, and for each event a time, a header, an Int and its padding.
const ROOM: u32 = 24_016;

fn main(rt: HostRuntime) -> Result<()> {
    let last = run(&rt)?;
    println!(rt; "{last}")?;
    Ok(())
}

fn run<R: Env + AllocGlobal>(rt: &R) -> Result<i64> {
    let mut words = env::args(rt)?.skip(1);
    let what = words.next().context("nothing is named")?;
    let rounds = words.next().context("no number of rounds")?;
    let rounds = rounds.as_str().parse::<u32>()?;
    let mut forge = Forge::with_room(rt.alloc(), ROOM)?;
    if fill(&mut forge, 0).is_err() {
        bail!("no room");
    }
    match what.as_str() {
        "forge" => Ok(forged(&mut forge, rounds)),
        "walk" => Ok(walked(forge.done(), rounds)),
        "read" => Ok(checked(forge.done(), rounds)),
        _ => bail!("there is no such thing to time"),
    }
}

/// Writes an event at a frame: an Int.
fn put(forge: &mut Forge, frame: i32, number: i32) -> Result<(), NoRoom>
    requires { AwaitsEvent forge.old }
    ensures { OnOk result (AwaitsEvent forge.new) }
{
    forge.event(i64::from(frame))?;
    forge.int(number)
}

/// Writes the sequence, whose Ints begin with this one.
fn fill(forge: &mut Forge, first: i32) -> Result<(), NoRoom> {
    forge.clear();
    forge.sequence()?;
    for frame in 0..EVENTS {
        put(forge, frame, first.wrapping_add(frame))?;
    }
    forge.pop();
    Ok(())
}

/// Writes it again and again, and gives how many times it had room.
fn forged(forge: &mut Forge, rounds: u32) -> i64 {
    let mut whole = 0i64;
    let mut first = 0i32;
    for _ in 0..rounds {
        for _ in 0..TIMES {
            first = first.wrapping_add(1);
            if fill(forge, first).is_ok() {
                whole = whole.wrapping_add(1);
            }
        }
    }
    whole
}

/// The Ints of a sequence and their frames, added to a sum.
fn add(view: AtomView<'_>, sum: i64) -> i64 {
    let Some(events) = events_of(view) else {
        return sum;
    };
    let mut sum = sum;
    for (frame, atom) in events {
        if let Some(number) = atom.int() {
            sum = sum.wrapping_add(frame).wrapping_add(i64::from(number));
        }
    }
    sum
}

/// Looks at the bytes once, and goes over their events again and again.
fn walked(bytes: &[u8], rounds: u32) -> i64 {
    let Ok(view) = read(bytes) else {
        return 0;
    };
    let mut sum = 0i64;
    for _ in 0..rounds {
        for _ in 0..TIMES {
            sum = add(view, sum);
        }
    }
    sum
}

/// Looks at the bytes as an atom, and goes over its events, again and again.
fn checked(bytes: &[u8], rounds: u32) -> i64 {
    let mut sum = 0i64;
    for _ in 0..rounds {
        for _ in 0..TIMES {
            if let Ok(view) = read(bytes) {
                sum = add(view, sum);
            }
        }
    }
    sum
}
