//! Judges a step record: `judge_count FILE BLOCKS TIMES`. The record is one of a plug-in with a worker and so many blocks. It is read once and
//! judged TIMES times and once more, so that a benchmark can tell judging from reading.
#![tactic(auto)]

ghost use Rattle.std.specs.Prelude.{◌≤◌, IfOk};
ghost use Rattle.record_terms.specs.Session.{IsSession};

use anyhow::{Context, Result, bail};
use lv_base::{Items, NoMemory};
use record_law::{Shape, ShapeInst};
use record_legal::legal;
use std::alloc::Global;
use std::rt::{Env, Files};
use std::{env, fs, mem};
use step_record::{Record, read};

fn main(rt: HostRuntime) -> Result<()> {
    let entries = run(&rt)?;
    println!(rt; "entries {entries}")?;
    Ok(())
}

fn run<R: Env + Files + AllocGlobal>(rt: &R) -> Result<usize> {
    let mut words = env::args(rt)?.skip(1);
    let path = words.next().context("no file is named")?;
    let blocks = words.next().context("no number of blocks")?;
    let times = words.next().context("no number of times")?;
    let blocks = blocks.as_str().parse::<u16>()?;
    let times = times.as_str().parse::<u32>()?;
    let bytes = fs::read(rt, path.as_str())?;
    let steps = entries_of(rt.alloc(), &bytes)?;
    judge(rt.alloc(), u32::from(blocks), &steps, times)?;
    let entries = steps.entries().len();
    // Its memory goes back with the process.
    mem::forget(steps);
    Ok(entries)
}

fn entries_of(alloc: Global, bytes: &[u8]) -> Result<Record> {
    match read(alloc, bytes) {
        Ok(steps) => Ok(steps),
        Err(fault) => bail!("{fault:?}"),
    }
}

fn judge(alloc: Global, blocks: u32, steps: &Record, times: u32) -> Result<()>
    requires { blocks ≤ 65536 }
{
    let Ok(shape) = session(alloc, blocks) else {
        bail!("no memory");
    };
    judge_all(alloc, &shape, steps, times)
}

fn judge_all(alloc: Global, shape: &Shape, steps: &Record, times: u32) -> Result<()>
    requires { IsSession shape.now }
{
    for _ in 0..times {
        judge_once(alloc, shape, steps)?;
    }
    judge_once(alloc, shape, steps)
}

fn judge_once(alloc: Global, shape: &Shape, steps: &Record) -> Result<()>
    requires { IsSession shape.now }
{
    if legal(alloc, shape, steps).is_err() {
        bail!("the record isn't lawful");
    }
    Ok(())
}

fn session(alloc: Global, blocks: u32) -> Result<Shape, NoMemory>
    requires { blocks ≤ 65536 }
    ensures { IfOk result IsSession }
{
    let inst = ShapeInst {
        worker: 1,
        works: true,
        replies: false,
    };
    Ok(Shape {
        blocks,
        cells: 8,
        workers: 1,
        plan: Items::from_slice(alloc, &[0])?,
        insts: Items::from_slice(alloc, &[inst])?,
        actions: Items::new(alloc),
    })
}
