//! lv2fx: renders sessions of LV2 plug-ins.
#![tactic(auto)]

use host_main::{Stock, host_main, without_words};
use lv_base::{NoMemory, Text};
use lv_outside::{DirVault, OpenGate, OutSink};
use std::env;
use std::io::ErrorKind;
use std::process::ExitCode;
use std::rt::Env;

fn main(rt: HostRuntime) -> ExitCode {
    let mut vault = DirVault::new(rt);
    let mut out = OutSink::new(rt);
    let status = match words(&rt) {
        Ok(words) => host_main(
            rt.alloc(),
            words.as_slice(),
            &mut vault,
            &mut out,
            &Stock,
            &OpenGate,
        ),
        Err(NoMemory) => without_words(&mut out),
    };
    ExitCode::from(status)
}

// The words after the program's name. Words that aren't all UTF-8 are words of no form.
fn words<R: Env + AllocGlobal>(rt: &R) -> Result<Vec<Text>, NoMemory> {
    let mut words = Vec::new(rt.alloc());
    match env::args(rt) {
        Ok(args) => {
            for word in args.skip(1) {
                words.push(Text::from_str(rt.alloc(), word.as_str())?)?;
            }
        }
        Err(error) if error.kind() == ErrorKind::OutOfMemory => return Err(NoMemory),
        Err(_) => {}
    }
    Ok(words)
}
