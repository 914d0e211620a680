//! Runs one kernel of sound over a block of 512 frames: `kernel_count KERNEL ROUNDS`, a thousand times a round, so that a benchmark can
//! time it. It ends with one sample of the result, so that nothing of it can be left out.
#![tactic(auto)]

use anyhow::{Context, Result, bail};
use lv_base::{Fixed, Sample};
use sound_block::{add, clear, finish, gain_into, to_pcm};
use std::alloc::Global;
use std::env;
use std::rt::Env;

const FRAMES: usize = 512;

const TIMES: u32 = 1000;

fn main(rt: HostRuntime) -> Result<()> {
    let heard = run(&rt)?;
    println!(rt; "{heard}")?;
    Ok(())
}

fn run<R: Env + AllocGlobal>(rt: &R) -> Result<i32> {
    let mut words = env::args(rt)?.skip(1);
    let kernel = words.next().context("no kernel is named")?;
    let rounds = words.next().context("no number of rounds")?;
    let rounds = rounds.as_str().parse::<u32>()?;
    match kernel.as_str() {
        "add" => sum(rt.alloc(), rounds),
        "finish" => finished(rt.alloc(), rounds),
        "gain" => gained(rt.alloc(), rounds, Fixed(16_777_215)),
        "gain_of_any" => gained(rt.alloc(), rounds, Fixed(4_294_967_295)),
        "pcm" => as_pcm(rt.alloc(), rounds),
        _ => bail!("there is no such kernel"),
    }
}

fn signal(alloc: Global) -> Result<Vec<Sample>> {
    let mut samples = Vec::new(alloc);
    for frame in 0..FRAMES {
        samples.push(Sample(frame as i32 * 65_536 - 16_777_216))?;
    }
    Ok(samples)
}

fn sum(alloc: Global, rounds: u32) -> Result<i32> {
    let signal = signal(alloc)?;
    let mut sums = Vec::from_elem(alloc, 0i64, signal.len())?;
    let mut out = Vec::from_elem(alloc, Sample(0), signal.len())?;
    for _ in 0..rounds {
        add_often(sums.as_mut_slice(), signal.as_slice());
    }
    finish_once(sums.as_slice(), out.as_mut_slice());
    Ok(last_of(out.as_slice()))
}

fn add_often(sums: &mut [i64], signal: &[Sample]) {
    if sums.len() == signal.len() {
        clear(sums);
        for _time in 0..TIMES {
            add(sums, signal);
        }
    }
}

fn finish_once(sums: &[i64], out: &mut [Sample]) {
    if sums.len() == out.len() {
        finish(sums, out);
    }
}

fn last_of(samples: &[Sample]) -> i32 {
    samples.last().map_or(0, |sample| sample.0)
}

fn finished(alloc: Global, rounds: u32) -> Result<i32> {
    let mut sums = Vec::from_elem(alloc, 0i64, FRAMES)?;
    for frame in 0..FRAMES {
        sums[frame] = frame as i64 * 16_777_216;
    }
    let mut out = Vec::from_elem(alloc, Sample(0), FRAMES)?;
    for _ in 0..rounds {
        for _ in 0..TIMES {
            finish_once(sums.as_slice(), out.as_mut_slice());
        }
    }
    Ok(last_of(out.as_slice()))
}

fn gained(alloc: Global, rounds: u32, factor: Fixed) -> Result<i32> {
    let signal = signal(alloc)?;
    let mut out = Vec::from_elem(alloc, Sample(0), signal.len())?;
    for _ in 0..rounds {
        for _ in 0..TIMES {
            gain_once(signal.as_slice(), factor, out.as_mut_slice());
        }
    }
    Ok(last_of(out.as_slice()))
}

fn gain_once(signal: &[Sample], factor: Fixed, out: &mut [Sample]) {
    if signal.len() == out.len() {
        gain_into(signal, factor, out);
    }
}

fn as_pcm(alloc: Global, rounds: u32) -> Result<i32> {
    let signal = signal(alloc)?;
    let mut out = Vec::from_elem(alloc, 0u8, 2 * FRAMES)?;
    for _ in 0..rounds {
        for _ in 0..TIMES {
            put_once(signal.as_slice(), out.as_mut_slice());
        }
    }
    Ok(out.last().map_or(0, |byte| i32::from(*byte)))
}

fn put_once(signal: &[Sample], out: &mut [u8]) {
    if signal.len() <= FRAMES && out.len() == 2 * signal.len() {
        to_pcm(signal, out);
    }
}
