//! A program that embeds lv2fx: it renders a session that it has in memory, and prints the summary and the sound.
#![tactic(auto)]

use anyhow::{Context, Result, bail};
use host_main::{Stock, host_main};
use lv_base::{Bytes, Text};
use lv_outside::{MemSink, MemVault, OpenGate};
use std::alloc::Global;

const SESSION: &str = "lv2fx 1
block 4
blocks 2
inst c urn:lv2fx:const
inst g urn:lv2fx:amp
set c value 0.5
set g gain 0.5
cable c out g in
out g out
";

fn main(rt: HostRuntime) -> Result<()> {
    let mut vault = vault_with(rt.alloc(), "half.ses", SESSION)?;
    let mut out = MemSink::new(rt.alloc(), Vec::new(rt.alloc()));
    let words = words_of(rt.alloc(), ["render", "half.ses", "half"])?;
    let status = host_main(
        rt.alloc(),
        words.as_slice(),
        &mut vault,
        &mut out,
        &Stock,
        &OpenGate,
    );
    if status != 0 {
        bail!("the session isn't rendered: status {status}");
    }
    let sound = vault.file("half.pcm".as_bytes()).context("no sound")?;
    for sample in sound.chunks_exact(2) {
        println!(rt; "{}", i16::from_le_bytes([sample[0], sample[1]]))?;
    }
    Ok(())
}

fn vault_with(alloc: Global, path: &str, text: &str) -> Result<MemVault> {
    let mut files = Vec::new(alloc);
    files.push((bytes_of(alloc, path)?, bytes_of(alloc, text)?))?;
    Ok(MemVault::new(alloc, files, Vec::new(alloc)))
}

fn bytes_of(alloc: Global, text: &str) -> Result<Bytes> {
    match Bytes::from_slice(alloc, text.as_bytes()) {
        Ok(bytes) => Ok(bytes),
        Err(_) => bail!("no memory"),
    }
}

fn words_of(alloc: Global, words: [&str; 3]) -> Result<Vec<Text>> {
    let mut texts = Vec::new(alloc);
    for word in words {
        match Text::from_str(alloc, word) {
            Ok(text) => texts.push(text)?,
            Err(_) => bail!("no memory"),
        }
    }
    Ok(texts)
}
