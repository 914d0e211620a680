//! Passes messages of 264 bytes through a ring: `message_count WAY ROUNDS`, a thousand messages a round, so that a benchmark can time it.
//! WAY is `threads`, from one thread to another, or `turns`, each message sent and taken in turn by one thread. It ends with the sum of all
//! words that were taken, so that no part of a message can be left out.
#![tactic(auto)]

ghost use Rattle.std.specs.Prelude.{◌≡◌, ◌<◌, IfOk};
ghost use Rattle.cable_ring.specs.Tables.{table_of};
ghost use Rattle.message_count.specs.Wired.{IsWired};

use anyhow::{Context, Result, bail};
use cable_ring::{Cable, Pass, RingSpec};
use lv_base::NoMemory;
use std::alloc::Global;
use std::rt::Env;
use std::sync::Wait;
use std::thread::Threads;
use std::{env, thread};

const CELLS: u32 = 64;

#[derive(Clone, Copy, Drop)]
struct Message {
    words: [u64; 33],
}

impl Message {
    fn new(number: u64) -> Self {
        Message {
            words: [number; 33],
        }
    }

    fn sum(&self) -> u64 {
        let mut sum = 0u64;
        for word in &self.words {
            sum = sum.wrapping_add(*word);
        }
        sum
    }
}

fn main(rt: HostRuntime) -> Result<()> {
    let mut words = env::args(&rt)?.skip(1);
    let way = words.next().context("no way is named")?;
    let rounds = words.next().context("no number of rounds")?;
    let count = u64::from(rounds.as_str().parse::<u32>()?) * 1000;
    let (cable, sender, taker) = wired(rt.alloc())?;
    let sum = match way.as_str() {
        "threads" => by_threads(&rt, &cable, sender, taker, count),
        "turns" => in_turns(&cable, sender, taker, count),
        _ => bail!("there is no such way"),
    };
    println!(rt; "{sum}")?;
    Ok(())
}

// A cable with one ring, and the tokens of its sender and its taker.
fn wired(alloc: Global) -> Result<(Cable<Message>, Pass<Message>, Pass<Message>), NoMemory>
    ensures { IfOk result (λ made. IsWired (table_of made.0) 0 made.1 × IsWired (table_of made.0) 1 made.2) }
{
    let rings = [RingSpec { from: 0, to: 1 }];
    let (cable, mut passes) = Cable::new(alloc, 0, CELLS, &rings, 2)?;
    let taker = passes.pop().unwrap();
    let sender = passes.pop().unwrap();
    Ok((cable, sender, taker))
}

fn send_once(cable: &Cable<Message>, pass: &mut Pass<Message>, number: u64) -> bool
    requires { IsWired (table_of cable.now) 0 pass.old }
    ensures { IsWired (table_of cable.now) 0 pass.new }
{
    if pass.left() == 0 {
        return false;
    }
    cable.send(pass, 0, Message::new(number)).is_ok()
}

fn look_once(cable: &Cable<Message>, pass: &mut Pass<Message>) -> u64
    requires { IsWired (table_of cable.now) 1 pass.old }
    ensures { IsWired (table_of cable.now) 1 pass.new }
{
    if pass.left() == 0 {
        return 0;
    }
    cable.look(pass, 0).0
}

fn take_once(cable: &Cable<Message>, pass: &mut Pass<Message>) -> Option<u64>
    requires { IsWired (table_of cable.now) 1 pass.old }
    ensures { IsWired (table_of cable.now) 1 pass.new }
{
    if pass.left() == 0 {
        return None;
    }
    let (message, _) = cable.take(pass, 0)?;
    Some(message.sum())
}

fn in_turns(
    cable: &Cable<Message>,
    mut sender: Pass<Message>,
    mut taker: Pass<Message>,
    count: u64,
) -> u64
    requires { IsWired (table_of cable.now) 0 sender × IsWired (table_of cable.now) 1 taker }
{
    let mut sum = 0u64;
    for number in 0..count {
        send_once(cable, &mut sender, number);
        look_once(cable, &mut taker);
        if let Some(part) = take_once(cable, &mut taker) {
            sum = sum.wrapping_add(part);
        }
    }
    sum
}

fn send_all<R: Wait>(rt: &R, cable: &Cable<Message>, mut pass: Pass<Message>, count: u64)
    requires { IsWired (table_of cable.now) 0 pass }
{
    let mut next = 0;
    for _ in rt.forever() {
        if next >= count {
            break;
        }
        if send_once(cable, &mut pass, next) {
            next += 1;
        } else {
            thread::yield_now();
        }
    }
}

fn take_all<R: Wait>(rt: &R, cable: &Cable<Message>, mut pass: Pass<Message>, count: u64) -> u64
    requires { IsWired (table_of cable.now) 1 pass }
{
    let mut taken = 0;
    let mut sum = 0u64;
    for _ in rt.forever() {
        if taken >= count {
            break;
        }
        match take_once(cable, &mut pass) {
            Some(part) => {
                sum = sum.wrapping_add(part);
                taken += 1;
            }
            None => {
                if look_once(cable, &mut pass) == 0 {
                    thread::yield_now();
                }
            }
        }
    }
    sum
}

fn by_threads<R: Threads + Wait + Sync>(
    rt: &R,
    cable: &Cable<Message>,
    sender: Pass<Message>,
    taker: Pass<Message>,
    count: u64,
) -> u64
    requires { IsWired (table_of cable.now) 0 sender × IsWired (table_of cable.now) 1 taker }
{
    let ((), sum) = thread::join(
        rt,
        move ||
            requires { IsWired (table_of cable.now) 0 sender }
        { send_all(rt, cable, sender, count) },
        move ||
            requires { IsWired (table_of cable.now) 1 taker }
        { take_all(rt, cable, taker, count) },
    );
    sum
}
