//! Counts the triples of a Turtle document: `triple_count FILE TIMES` reads the file once and its triples TIMES times, each time
//! into a new store, so that a benchmark can tell the time of the reader from that of the file.
#![tactic(auto)]

use anyhow::{Context, Result, bail};
use lv_base::Text;
use std::alloc::Global;
use std::rt::{Env, Files};
use std::{env, fs, mem};
use triple_store::Store;
use turtle_read::read;

fn main(rt: HostRuntime) -> Result<()> {
    let triples = run(&rt)?;
    println!(rt; "triples {triples}")?;
    Ok(())
}

fn run<R: Env + Files + AllocGlobal>(rt: &R) -> Result<u32> {
    let mut words = env::args(rt)?.skip(1);
    let path = words.next().context("no file is named")?;
    let times = words.next().context("no number of times")?;
    let bytes = fs::read(rt, path.as_str())?;
    let mut store = Store::new(rt.alloc());
    for _ in 0..times.as_str().parse::<u32>()? {
        store = filled(rt.alloc(), &bytes)?;
    }
    let triples = store.count();
    // Its memory goes back with the process: to take it apart is no part of reading.
    mem::forget(store);
    Ok(triples)
}

fn filled(alloc: Global, bytes: &[u8]) -> Result<Store> {
    let Ok(base) = Text::from_str(alloc, "file:///bundle/0/manifest.ttl") else {
        bail!("no memory");
    };
    let mut store = Store::new(alloc);
    match read(alloc, &base, bytes, &mut store) {
        Ok(_) => Ok(store),
        Err(fault) => bail!("{fault:?}"),
    }
}
