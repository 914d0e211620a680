//! Counts the tokens of a Turtle document: `token_count FILE TIMES` reads the file once and its tokens TIMES times, so that a
//! benchmark can tell the time of the lexer from that of reading.
#![tactic(auto)]

use anyhow::{Context, Result, bail};
use std::rt::{Env, Files};
use std::{env, fs};
use turtle_lex::{Lexer, next};

fn main(rt: HostRuntime) -> Result<()> {
    let tokens = run(&rt)?;
    println!(rt; "tokens {tokens}")?;
    Ok(())
}

fn run<R: Env + Files + AllocGlobal>(rt: &R) -> Result<usize> {
    let mut words = env::args(rt)?.skip(1);
    let path = words.next().context("no file is named")?;
    let times = words.next().context("no number of times")?;
    let bytes = fs::read(rt, path.as_str())?;
    let mut tokens = 0;
    for _ in 0..times.as_str().parse::<u32>()? {
        tokens = count(&bytes)?;
    }
    Ok(tokens)
}

fn count(bytes: &[u8]) -> Result<usize> {
    let mut lexer = Lexer::new(bytes);
    // A token has a byte at least.
    for read in 0..=bytes.len() {
        match next(&mut lexer) {
            Ok(Some(_)) => {}
            Ok(None) => return Ok(read),
            Err(fault) => bail!("{fault:?}"),
        }
    }
    bail!("there are more tokens than bytes")
}
