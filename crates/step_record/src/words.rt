ghost use Rattle.std.specs.Prelude.{◌≡◌, ◌≤◌, ◌^◌, min, length, position, IfSome};
ghost use Rattle.std.specs.List.{position_or_len};
ghost use Rattle.step_law.specs.Form.{IsForm};
ghost use Rattle.step_record.specs.Words as spec;

use crate::{Actor, Call, Entry, Event, Ring};

/// The entry that a text may begin with the line of: if it begins with a line, it is this entry's.
pub(crate) fn entry_in(text: &[u8]) -> Option<Entry>
    ensures value { result ≡ spec.entry_in text.now }
    ensures form { IfSome result (λ e. IsForm e) }
{
    let (first, more) = cut(text);
    if first == "end".as_bytes() {
        Some(Entry::last())
    } else {
        told_in(first, more)
    }
}

fn told_in(name: &[u8], text: &[u8]) -> Option<Entry>
    ensures value { result ≡ spec.told_entry (spec.actor_in name.now) (spec.event_in (spec.word text.now) (spec.rest text.now)) }
    ensures form { IfSome result (λ e. IsForm e) }
{
    let (verb, more) = cut(text);
    let actor = actor_in(name)?;
    let event = event_in(verb, more)?;
    if event.is_told_by(actor) {
        Some(Entry::from_event(actor, event))
    } else {
        None
    }
}

fn event_in(verb: &[u8], line: &[u8]) -> Option<Event>
    ensures { result ≡ spec.event_in verb.now line.now }
{
    if verb == "begin".as_bytes() {
        let (call, inst) = called_in(line)?;
        Some(Event::Begin(call, inst))
    } else if verb == "end".as_bytes() {
        let (call, inst) = called_in(line)?;
        Some(Event::End(call, inst))
    } else if verb == "look".as_bytes() {
        look_in(line)
    } else if verb == "stop".as_bytes() {
        Some(Event::Stop)
    } else if verb == "join".as_bytes() {
        Some(Event::Join)
    } else {
        on_ring_in(verb, line)
    }
}

fn look_in(line: &[u8]) -> Option<Event>
    ensures { result ≡ spec.look_at (spec.ring_in (spec.word line.now)) (spec.number_in (spec.word (spec.rest line.now))) }
{
    let (ring, line) = cut(line);
    let (shown, _) = cut(line);
    let ring = ring_in(ring)?;
    Some(Event::Look(ring, number_in(shown)?))
}

fn on_ring_in(verb: &[u8], line: &[u8]) -> Option<Event>
    ensures { result ≡ spec.on_ring_in verb.now line.now }
{
    let (ring, _) = cut(line);
    if verb == "take".as_bytes() {
        Some(Event::Take(ring_in(ring)?))
    } else if verb == "send".as_bytes() {
        Some(Event::Send(ring_in(ring)?))
    } else if verb == "full".as_bytes() {
        Some(Event::Full(ring_in(ring)?))
    } else if verb == "long".as_bytes() {
        Some(Event::Long(ring_in(ring)?))
    } else {
        numbered_in(verb, line)
    }
}

fn numbered_in(verb: &[u8], line: &[u8]) -> Option<Event>
    ensures { result ≡ spec.numbered_in verb.now line.now }
{
    let (number, _) = cut(line);
    if verb == "block".as_bytes() {
        Some(Event::Block(number_in(number)?))
    } else if verb == "done".as_bytes() {
        Some(Event::Done(number_in(number)?))
    } else if verb == "beat".as_bytes() {
        Some(Event::Beat(number_in(number)?))
    } else if verb == "late".as_bytes() {
        Some(Event::Late(number_in(number)?))
    } else {
        None
    }
}

fn called_in(line: &[u8]) -> Option<(Call, u32)>
    ensures { result ≡ spec.call_and_inst (spec.call_in (spec.word line.now)) (spec.number_in (spec.word (spec.rest line.now))) }
{
    let (call, line) = cut(line);
    let (inst, _) = cut(line);
    let call = call_in(call)?;
    Some((call, number_in(inst)?))
}

fn call_in(name: &[u8]) -> Option<Call>
    ensures { result ≡ spec.call_in name.now }
{
    if name == "make".as_bytes() {
        Some(Call::Make)
    } else if name == "activate".as_bytes() {
        Some(Call::Activate)
    } else if name == "deactivate".as_bytes() {
        Some(Call::Deactivate)
    } else if name == "cleanup".as_bytes() {
        Some(Call::Cleanup)
    } else if name == "restore".as_bytes() {
        Some(Call::Restore)
    } else {
        run_call_in(name)
    }
}

fn run_call_in(name: &[u8]) -> Option<Call>
    ensures { result ≡ spec.run_call_in name.now }
{
    if name == "run".as_bytes() {
        Some(Call::Run)
    } else if name == "response".as_bytes() {
        Some(Call::Response)
    } else if name == "end_run".as_bytes() {
        Some(Call::EndRun)
    } else if name == "work".as_bytes() {
        Some(Call::Work)
    } else if name == "save".as_bytes() {
        Some(Call::Save)
    } else if name == "restore_safe".as_bytes() {
        Some(Call::RestoreSafe)
    } else {
        None
    }
}

fn actor_in(name: &[u8]) -> Option<Actor>
    ensures { result ≡ spec.actor_in name.now }
{
    let (letter, number) = name.split_first()?;
    match *letter {
        b'A' => Some(Actor::Audio),
        b'W' => Some(Actor::Worker(number_in(number)?)),
        _ => Some(Actor::Control),
    }
}

fn ring_in(name: &[u8]) -> Option<Ring>
    ensures { result ≡ spec.ring_in name.now }
{
    let (letter, more) = name.split_first()?;
    match *letter {
        b'J' => Some(Ring::Jobs(number_in(more)?)),
        b'R' => Some(Ring::Responses(number_in(more)?)),
        b'L' => Some(Ring::LocalJobs(number_in(more)?)),
        b'A' => Some(Ring::AudioToControl),
        b'C' => ring_of_control(more),
        _ => ring_of_worker(more),
    }
}

fn ring_of_control(name: &[u8]) -> Option<Ring>
    ensures { result ≡ spec.ring_of_control name.now }
{
    let (letter, number) = name.split_first()?;
    match *letter {
        b'A' => Some(Ring::ControlToAudio),
        _ => Some(Ring::ControlToWorker(number_in(number)?)),
    }
}

fn ring_of_worker(name: &[u8]) -> Option<Ring>
    ensures { result ≡ spec.ring_of_worker name.now }
{
    let (_, number) = name.split_first()?;
    Some(Ring::WorkerToControl(number_in(number)?))
}

fn number_in(digits: &[u8]) -> Option<u32>
    ensures { result ≡ spec.number_in digits.now }
{
    u32::try_from(value_of(digits)).ok()
}

// What digits say, up to 2^32, which no number of a line reaches.
fn value_of(digits: &[u8]) -> u64
    ensures { result ≡ min (spec.value_of digits.now) (2 ^ 32) }
{
    let mut value = 0;
    for digit in digits {
        value = (value * 10 + u64::from(digit.saturating_sub(b'0'))).min(4_294_967_296);
    }
    value
}

// The first word of a text, and what follows its end.
fn cut(text: &[u8]) -> (&[u8], &[u8])
    ensures first { result.0.now ≡ spec.word text.now }
    ensures others { result.1.now ≡ spec.rest text.now }
{
    let end = word_len(text);
    let next = (end + 1).min(text.len());
    (&text[..end], &text[next..])
}

fn word_len(text: &[u8]) -> usize
    ensures value { result ≡ position_or_len spec.is_end text.now }
    ensures within { result ≤ length text.now }
{
    first_end(text).unwrap_or(text.len())
}

fn first_end(text: &[u8]) -> Option<usize>
    ensures { result ≡ position spec.is_end text.now }
{
    text.iter().position(|byte| is_end(*byte))
}

fn is_end(byte: u8) -> bool
    ensures { result ≡ spec.is_end byte }
{
    byte == b' ' || byte == b'\n'
}
