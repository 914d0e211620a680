ghost use Rattle.std.specs.Prelude.{◌≡◌, ◌≤◌, ◌<◌, ◌*◌, ◌++◌, ◌^◌, length, IfOk, OnOk};
ghost use Rattle.replay_core.specs.Summary.{counted, jobs_part, responses_part, inst_line, inst_lines, size_line, last_lines, summary_of};

use crate::count::{ended, events, refused, sent};
use lv_base::{Bytes, NoMemory, Text};
use session_script::Session;
use std::alloc::Global;
use step_record::{Call, Entry, Record, Ring};

/// The summary of a run, for people.
pub(crate) fn summary(alloc: Global, session: &Session, steps: &Record) -> Result<Bytes, NoMemory>
    requires insts { length session.now.insts ≤ 32 }
    requires size { session.now.block * session.now.blocks < 2 ^ 32 }
    ensures { IfOk result (λ text. text ≡ summary_of session.now steps.now) }
{
    let mut text = Bytes::from_slice(alloc, "lv2fx render\n".as_bytes())?;
    push_size(&mut text, session)?;
    push_insts(&mut text, session, steps.entries())?;
    push_last(&mut text, events(steps.entries()))?;
    Ok(text)
}

fn push_size(text: &mut Bytes, session: &Session) -> Result<(), NoMemory>
    requires { session.now.block * session.now.blocks < 2 ^ 32 }
    ensures { OnOk result (text.new ≡ text.old ++ size_line session.now) }
{
    let frames = session.block * session.blocks;
    push_count(text, "frames ", frames as usize)?;
    push_count(text, " channels ", session.outs.len())?;
    text.push_str("\n")
}

fn push_insts(text: &mut Bytes, session: &Session, steps: &[Entry]) -> Result<(), NoMemory>
    requires { length session.now.insts ≤ 32 }
    ensures { OnOk result (text.new ≡ text.old ++ inst_lines session.now steps.now) }
{
    for i in 0..session.insts.len() {
        let inst = &session.insts.as_slice()[i];
        push_inst(text, &inst.name, i as u32, steps)?;
    }
    Ok(())
}

fn push_inst(text: &mut Bytes, name: &Text, inst: u32, steps: &[Entry]) -> Result<(), NoMemory>
    requires { inst < 32 }
    ensures { OnOk result (text.new ≡ text.old ++ inst_line name.now inst steps.now) }
{
    text.push_str("inst ")?;
    text.push_str(name.as_str())?;
    push_count(text, " runs ", ended(steps, Call::Run, inst))?;
    push_jobs(text, inst, steps)?;
    push_responses(text, inst, steps)?;
    text.push_str(" errors 0\n")
}

fn push_jobs(text: &mut Bytes, inst: u32, steps: &[Entry]) -> Result<(), NoMemory>
    requires { inst < 32 }
    ensures { OnOk result (text.new ≡ text.old ++ jobs_part inst steps.now) }
{
    let jobs = Ring::Jobs(inst);
    let local = Ring::LocalJobs(inst);
    push_count(text, " jobs ", sent(steps, jobs, local))?;
    push_count(text, " refused ", refused(steps, jobs, local))?;
    push_count(text, " worked ", ended(steps, Call::Work, inst))
}

fn push_responses(text: &mut Bytes, inst: u32, steps: &[Entry]) -> Result<(), NoMemory>
    requires { inst < 32 }
    ensures { OnOk result (text.new ≡ text.old ++ responses_part inst steps.now) }
{
    let ring = Ring::Responses(inst);
    push_count(text, " responses ", sent(steps, ring, ring))?;
    push_count(text, " dropped ", refused(steps, ring, ring))?;
    push_count(text, " delivered ", ended(steps, Call::Response, inst))
}

fn push_last(text: &mut Bytes, entries: usize) -> Result<(), NoMemory>
    ensures { OnOk result (text.new ≡ text.old ++ last_lines entries) }
{
    text.push_str("saves 0\n")?;
    text.push_str("late 0\n")?;
    text.push_str("lost 0\n")?;
    push_count(text, "entries ", entries)?;
    text.push_str("\n")
}

fn push_count(text: &mut Bytes, name: &str, count: usize) -> Result<(), NoMemory>
    ensures { OnOk result (text.new ≡ text.old ++ counted name.now count) }
{
    text.push_str(name)?;
    text.push_decimal(count as u64)
}
