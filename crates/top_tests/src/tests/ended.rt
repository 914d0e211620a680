use host_main::{Stock, host_main};
use lv_base::{Bytes, NoMemory, Text};
use lv_outside::{MemSink, MemVault, OpenGate};
use std::alloc::Global;

/// What a command left behind.
#[derive(Drop)]
pub struct Ended {
    status: u8,
    vault: MemVault,
    out: MemSink,
}

impl Ended {
    /// The command ended with this status, and these are the lines that it put.
    pub fn is(&self, status: u8, lines: &str) -> bool {
        self.status == status && self.out.taken() == lines.as_bytes()
    }

    /// The work was done, and these lines are the last ones.
    pub fn ends_in(&self, lines: &str) -> bool {
        self.status == 0 && self.out.taken().ends_with(lines.as_bytes())
    }

    /// The file at the path has these bytes.
    pub fn holds(&self, path: &str, bytes: &[u8]) -> bool {
        self.vault.file(path.as_bytes()).unwrap_or(b"nothing") == bytes
    }
}

/// The call on the vault, and that on the sink, that is to fail.
#[derive(Clone, Copy)]
pub struct Fails {
    pub vault: Option<u64>,
    pub sink: Option<u64>,
}

impl Fails {
    pub const NONE: Fails = Fails {
        vault: None,
        sink: None,
    };
}

/// Adds a file to those that a vault is to have.
pub fn hold(
    files: &mut Vec<(Bytes, Bytes)>,
    alloc: Global,
    path: &str,
    text: &str,
) -> Result<(), NoMemory> {
    let path = Bytes::from_slice(alloc, path.as_bytes())?;
    let text = Bytes::from_slice(alloc, text.as_bytes())?;
    files.push((path, text))?;
    Ok(())
}

/// What a command leaves behind over a vault with these files.
pub fn run(
    alloc: Global,
    words: &[&str],
    files: Vec<(Bytes, Bytes)>,
    fails: Fails,
) -> Result<Ended, NoMemory> {
    let words = words_of(alloc, words)?;
    run_words(alloc, words.as_slice(), files, fails)
}

fn run_words(
    alloc: Global,
    words: &[Text],
    files: Vec<(Bytes, Bytes)>,
    fails: Fails,
) -> Result<Ended, NoMemory> {
    let vault_fails = calls_of(alloc, fails.vault)?;
    let sink_fails = calls_of(alloc, fails.sink)?;
    let mut vault = MemVault::new(alloc, files, vault_fails);
    let mut out = MemSink::new(alloc, sink_fails);
    let status = host_main(alloc, words, &mut vault, &mut out, &Stock, &OpenGate);
    Ok(Ended { status, vault, out })
}

fn words_of(alloc: Global, words: &[&str]) -> Result<Vec<Text>, NoMemory> {
    let mut texts = Vec::new(alloc);
    for word in words {
        texts.push(Text::from_str(alloc, word)?)?;
    }
    Ok(texts)
}

fn calls_of(alloc: Global, call: Option<u64>) -> Result<Vec<u64>, NoMemory> {
    let mut calls = Vec::new(alloc);
    if let Some(call) = call {
        calls.push(call)?;
    }
    Ok(calls)
}
