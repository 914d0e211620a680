//! Sessions by number: `generate` gives, for each number, the text of a session of sixteen instances, two of each stock code, with cables,
//! first values and 64 actions that a generator of pseudorandom numbers draws. The same number gives the same text anywhere.
#![tactic(auto)]

ghost use Rattle.std.specs.Prelude.{IfOk};
ghost use Rattle.session_generate.specs.Generated.{IsGenerated};

mod draws;
mod lines;

use lines::Script;
use lv_base::{Bytes, NoMemory};
use std::alloc::Global;

/// The text of the session with this number.
pub fn generate(alloc: Global, seed: u32) -> Result<Bytes, NoMemory>
    ensures { IfOk result (IsGenerated seed) }
{
    let mut script = Script::new(alloc, seed);
    script.push_all()?;
    Ok(script.into_text())
}
