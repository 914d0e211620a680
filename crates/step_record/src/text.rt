ghost use Rattle.std.specs.Prelude.{◌≡◌, ◌++◌, OnOk, IfOk, decimal};
ghost use Rattle.step_law.specs.Actor.{actor_name};
ghost use Rattle.step_law.specs.Ring.{ring_name};
ghost use Rattle.step_record.specs.RecordText.{record_text, line_of, event_text, ring_text, called_text};

use crate::{Actor, Call, Entry, Kind, Record, Ring};
use lv_base::{Bytes, NoMemory};
use std::alloc::Global;

/// The record's text, format 1: the line `lv2fx-record 1`, and a line for each entry.
pub fn write(alloc: Global, steps: &Record) -> Result<Bytes, NoMemory>
    ensures { IfOk result (λ text. text ≡ record_text steps.now) }
{
    let mut text = Bytes::from_slice(alloc, "lv2fx-record 1\n".as_bytes())?;
    for entry in steps.entries() {
        push_line(&mut text, entry)?;
    }
    Ok(text)
}

pub(crate) fn push_line(text: &mut Bytes, entry: &Entry) -> Result<(), NoMemory>
    ensures { OnOk result (text.new ≡ text.old ++ line_of entry.now) }
{
    if entry.kind == Kind::Last {
        return text.push_str("end\n");
    }
    push_actor(text, Actor::from_number(entry.actor))?;
    push_event(text, entry)?;
    text.push_str("\n")
}

fn push_event(text: &mut Bytes, entry: &Entry) -> Result<(), NoMemory>
    ensures { OnOk result (text.new ≡ text.old ++ event_text entry.now.kind entry.now.a entry.now.b) }
{
    match entry.kind {
        Kind::Block => push_numbered(text, " block ", entry.a),
        Kind::Look => {
            push_on_ring(text, " look ", entry.a)?;
            push_numbered(text, " ", entry.b)
        }
        Kind::Take => push_on_ring(text, " take ", entry.a),
        Kind::Send => push_on_ring(text, " send ", entry.a),
        Kind::Full => push_on_ring(text, " full ", entry.a),
        Kind::Long => push_on_ring(text, " long ", entry.a),
        Kind::Done => push_numbered(text, " done ", entry.a),
        Kind::Stop => text.push_str(" stop"),
        Kind::Begin => push_called(text, " begin ", entry.a, entry.b),
        Kind::End => push_called(text, " end ", entry.a, entry.b),
        Kind::Beat => push_numbered(text, " beat ", entry.a),
        Kind::Join => text.push_str(" join"),
        Kind::Late => push_numbered(text, " late ", entry.a),
        Kind::Last => Ok(()),
    }
}

fn push_actor(text: &mut Bytes, actor: Actor) -> Result<(), NoMemory>
    ensures { OnOk result (text.new ≡ text.old ++ actor_name actor) }
{
    match actor {
        Actor::Audio => text.push_str("A"),
        Actor::Control => text.push_str("C"),
        Actor::Worker(worker) => push_numbered(text, "W", worker),
    }
}

fn push_on_ring(text: &mut Bytes, words: &str, ring: u32) -> Result<(), NoMemory>
    ensures { OnOk result (text.new ≡ text.old ++ (words.now ++ ring_text ring)) }
{
    text.push_str(words)?;
    push_ring(text, Ring::from_number(ring))
}

fn push_ring(text: &mut Bytes, ring: Ring) -> Result<(), NoMemory>
    ensures { OnOk result (text.new ≡ text.old ++ ring_name ring) }
{
    match ring {
        Ring::ControlToAudio => text.push_str("CA"),
        Ring::AudioToControl => text.push_str("AC"),
        Ring::ControlToWorker(worker) => push_numbered(text, "CW", worker),
        Ring::WorkerToControl(worker) => push_numbered(text, "WC", worker),
        Ring::Jobs(inst) => push_numbered(text, "J", inst),
        Ring::Responses(inst) => push_numbered(text, "R", inst),
        Ring::LocalJobs(inst) => push_numbered(text, "L", inst),
    }
}

fn push_called(text: &mut Bytes, words: &str, call: u32, inst: u32) -> Result<(), NoMemory>
    ensures { OnOk result (text.new ≡ text.old ++ (words.now ++ called_text call inst)) }
{
    text.push_str(words)?;
    match Call::from_number(call) {
        Some(call) => text.push_str(call.name())?,
        None => text.push_str("unknown")?,
    }
    push_numbered(text, " ", inst)
}

fn push_numbered(text: &mut Bytes, words: &str, number: u32) -> Result<(), NoMemory>
    ensures { OnOk result (text.new ≡ text.old ++ (words.now ++ decimal number)) }
{
    text.push_str(words)?;
    text.push_decimal(u64::from(number))
}
