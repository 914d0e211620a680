//! Plays and checks examples: `example_runs PATH..`, each a session, whose name ends with `.ses`, or a bundle. Under each path stands what
//! `lv2fx` says of it, and of a session that it renders the beginning of its sound. A session has to load with the eight stock codes,
//! its state files included.
#![tactic(auto)]

use anyhow::{Result, bail};
use host_main::{Stock, host_main};
use lv_base::Text;
use lv_outside::{DirVault, MemSink, OpenGate};
use session_setup::load;
use session_states::states;
use std::alloc::Global;
use std::{env, fs, str};
use urid_map::Urids;

/// How many samples of a sound are shown.
const MOST_SAMPLES: usize = 32;

fn main(rt: HostRuntime) -> Result<()> {
    for path in env::args(&rt)?.skip(1) {
        let path = path.as_str();
        println!(rt; "{path}")?;
        if path.ends_with(".ses") {
            loads(rt, path)?;
            render(rt, path)?;
        } else {
            host(rt, &["check", path])?;
        }
    }
    Ok(())
}

/// Fails where the session, its bundles or its state files have a fault, or where its lines don't fit what its plug-ins declare.
fn loads(rt: HostRuntime, path: &str) -> Result<()> {
    let alloc = rt.alloc();
    let mut vault = DirVault::new(rt);
    let path = text_of(alloc, path)?;
    let Ok(loaded) = load(alloc, &path, &mut vault, &stock_codes::Stock) else {
        bail!("the session doesn't load");
    };
    let Ok(mut urids) = Urids::new(alloc) else {
        bail!("no memory");
    };
    match states(alloc, &loaded.session, &mut vault, &mut urids) {
        Ok(_) => Ok(()),
        Err(fault) => bail!("its states don't load: {fault}"),
    }
}

fn render(rt: HostRuntime, session: &str) -> Result<()> {
    if host(rt, &["render", session, "out"])? == 0 {
        let sound = fs::read(&rt, "out.pcm")?;
        print!(rt; "sound")?;
        for sample in sound.chunks_exact(2).take(MOST_SAMPLES) {
            print!(rt; " {}", i16::from_le_bytes([sample[0], sample[1]]))?;
        }
        println!(rt; "")?;
    }
    Ok(())
}

/// What the host says to these words, and its status.
fn host(rt: HostRuntime, words: &[&str]) -> Result<u8> {
    let alloc = rt.alloc();
    let mut vault = DirVault::new(rt);
    let mut out = MemSink::new(alloc, Vec::new(alloc));
    let words = words_of(alloc, words)?;
    let status = host_main(
        alloc,
        words.as_slice(),
        &mut vault,
        &mut out,
        &Stock,
        &OpenGate,
    );
    print!(rt; "{}", str::from_utf8(out.taken())?)?;
    println!(rt; "status {status}")?;
    Ok(status)
}

fn words_of(alloc: Global, words: &[&str]) -> Result<Vec<Text>> {
    let mut texts = Vec::new(alloc);
    for word in words {
        texts.push(text_of(alloc, word)?)?;
    }
    Ok(texts)
}

fn text_of(alloc: Global, text: &str) -> Result<Text> {
    match Text::from_str(alloc, text) {
        Ok(text) => Ok(text),
        Err(_) => bail!("no memory"),
    }
}
