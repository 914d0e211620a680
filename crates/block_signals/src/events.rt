ghost use Rattle.std.specs.Prelude.{◌≡◌, ℕ, ◌+◌, ◌≤◌, ◌∷◌, length, map, slice_get, Some, All};
ghost use Rattle.atom_forge.specs.Forged.{Forged};
ghost use Rattle.plug_api.specs.Sequences.{AreEventBytes};
ghost use Rattle.block_signals.specs.declared.source.Input.{Input as Kept};
ghost use Rattle.block_signals.specs.Messages as told;
ghost use Rattle.block_signals.specs.Merging as spec;

use crate::messages::Messages;
use crate::outlets::Outlets;
use crate::source::{Input, Source};
use atom_forge::Forge;
use atom_sequence::MOST_VIEWS;
use event_signals::put_merged;
use plug_api::Ins;

/// Puts at each input of events the merge of the messages, if it is their port, and of the events of its sources.
pub(crate) fn merge_all(
    ins: &mut Ins,
    inputs: &[Input],
    messages: &Option<Messages>,
    outlets: &Outlets,
)
    requires few { length inputs.now ≤ 256 }
    requires can { (i : ℕ) (input : Kept) → slice_get inputs.now i ≡ Some input → spec.CanTake ins.old messages.now outlets.now i input }
    ensures others { ins.new ≡ record ins.old { events = ins.new.events } }
    ensures rooms { map (λ (forge : Forged). forge.room) ins.new.events ≡ map (λ (forge : Forged). forge.room) ins.old.events }
    ensures put { (i : ℕ) (input : Kept) → slice_get inputs.now i ≡ Some input → spec.IsTaken ins.new messages.now outlets.now i input }
{
    for (port, input) in inputs.iter().enumerate() {
        merge_one(ins, port as u32, input, messages, outlets);
    }
}

fn merge_one(
    ins: &mut Ins,
    port: u32,
    input: &Input,
    messages: &Option<Messages>,
    outlets: &Outlets,
)
    requires { spec.CanTake ins.old messages.now outlets.now port input.now }
    ensures { ins.new ≡ spec.with_merge ins.old messages.now outlets.now port input.now }
{
    if let Input::Events(sources) = input {
        let forge = ins.forge_mut(port);
        merge_into(forge, port, sources.as_slice(), messages, outlets);
    }
}

/// Makes a forge the sequence of what comes to a port.
fn merge_into<'a>(
    forge: &mut Forge,
    port: u32,
    sources: &[Source],
    messages: &'a Option<Messages>,
    outlets: &'a Outlets,
)
    requires room { 16 ≤ forge.old.room }
    requires few { length sources.now ≤ 256 }
    requires heard { All (spec.GivesEvents outlets.now) sources.now }
    requires kept { spec.HaveBegun messages.now }
    requires timed { (frames : ℕ) × All (AreEventBytes frames) (spec.lists_at outlets.now messages.now port sources.now) }
    ensures { forge.new ≡ spec.merge_of forge.old.room (spec.lists_at outlets.now messages.now port sources.now) }
{
    let first = messages_at(messages, port);
    let heard = sources_left(messages, port, sources);
    let mut all = [first; MOST_VIEWS];
    let lists = &mut all[..1 + heard.len()];
    put_lists(lists, first, heard, outlets);
    put_merged(forge, lists);
}

/// Puts the bytes of the messages, and after them those of the events of each source.
fn put_lists<'a>(lists: &mut [&'a [u8]], first: &'a [u8], sources: &[Source], outlets: &'a Outlets)
    requires long { length lists.old ≡ 1 + length sources.now }
    requires heard { All (spec.GivesEvents outlets.now) sources.now }
    ensures { map spec.bytes_in lists.new ≡ first.now ∷ map (spec.events_heard outlets.now) sources.now }
{
    lists[0] = first;
    for (place, source) in sources.iter().enumerate() {
        lists[1 + place] = outlets.events(*source);
    }
}

/// The bytes of the messages that come in at a port.
fn messages_at(messages: &Option<Messages>, port: u32) -> &[u8]
    requires { spec.HaveBegun messages.now }
    ensures { result.now ≡ told.messages_at messages.now port }
{
    match messages {
        Some(messages) if messages.port == port => messages.events(),
        _ => &[],
    }
}

/// The sources that are still heard at a port: none after messages for which there is no room.
fn sources_left<'a>(messages: &Option<Messages>, port: u32, sources: &'a [Source]) -> &'a [Source]
    ensures { result.now ≡ spec.sources_left messages.now port sources.now }
{
    match messages {
        Some(messages) if messages.port == port && messages.full => &[],
        _ => sources,
    }
}
