//! Counts the entries of a step record: `record_count FILE READS WRITES` reads the file once, its entries READS times and once more,
//! and writes their text WRITES times, so that a benchmark can tell each of these from the rest.
#![tactic(auto)]

use anyhow::{Context, Result, bail};
use std::alloc::Global;
use std::rt::{Env, Files};
use std::{env, fs, mem};
use step_record::{Record, read, write};

fn main(rt: HostRuntime) -> Result<()> {
    let entries = run(&rt)?;
    println!(rt; "entries {entries}")?;
    Ok(())
}

fn run<R: Env + Files + AllocGlobal>(rt: &R) -> Result<usize> {
    let mut words = env::args(rt)?.skip(1);
    let path = words.next().context("no file is named")?;
    let reads = words.next().context("no number of reads")?;
    let writes = words.next().context("no number of writes")?;
    let bytes = fs::read(rt, path.as_str())?;
    for _ in 0..reads.as_str().parse::<u32>()? {
        entries_of(rt.alloc(), &bytes)?;
    }
    let steps = entries_of(rt.alloc(), &bytes)?;
    for _ in 0..writes.as_str().parse::<u32>()? {
        write_once(rt.alloc(), &steps)?;
    }
    let entries = steps.entries().len();
    // Its memory goes back with the process: to take it apart is no part of reading.
    mem::forget(steps);
    Ok(entries)
}

fn entries_of(alloc: Global, bytes: &[u8]) -> Result<Record> {
    match read(alloc, bytes) {
        Ok(steps) => Ok(steps),
        Err(fault) => bail!("{fault:?}"),
    }
}

fn write_once(alloc: Global, steps: &Record) -> Result<()> {
    if write(alloc, steps).is_err() {
        bail!("no memory");
    }
    Ok(())
}
