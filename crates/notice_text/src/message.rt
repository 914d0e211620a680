ghost use Rattle.std.specs.Prelude.{◌≡◌, ◌++◌, [], flat_map, OnOk};
ghost use Rattle.std.specs.Option.{option_map, option_map_or};
ghost use Rattle.object_properties.specs.Properties.{seen};
ghost use Rattle.play_outcome.specs.Messages.{named_text, valued_text, pair_text, all_text, notice_text};
ghost use Rattle.session_play.specs.Patch.{properties_of};
ghost use Rattle.notice_text.specs.Pieces.{set_text, put_text};

use crate::value::{push_uri, push_value};
use lv_base::{Bytes, NoMemory};
use object_properties::{Properties, Property, after, u32_at};
use std::alloc::Global;
use urid_map::Urids;

/// patch:Set and patch:Put: the types of the messages whose properties are told.
const SET: u32 = 16;

const PUT: u32 = 17;

/// patch:property, patch:value and patch:body: the keys of their properties.
const PROPERTY: u32 = 18;

const VALUE: u32 = 19;

const BODY: u32 = 21;

/// Adds what a notice says: ` set` with a property and its value, ` put` with each property and its value, or ` other`. `atom` is the whole
/// atom of the notice, and URIs are those with these numbers. Without memory some of it may stand there.
pub fn push_notice(
    alloc: Global,
    text: &mut Bytes,
    urids: &Urids,
    atom: &[u8],
) -> Result<(), NoMemory>
    ensures { OnOk result (text.new ≡ text.old ++ notice_text urids.now atom.now) }
{
    let body = after(atom, 8);
    match u32_at(body, 4) {
        SET => push_set(alloc, text, urids, body),
        PUT => push_put(alloc, text, urids, body),
        _ => text.push_str(" other"),
    }
}

/// A patch:Set with this body.
fn push_set(alloc: Global, text: &mut Bytes, urids: &Urids, body: &[u8]) -> Result<(), NoMemory>
    ensures { OnOk result (text.new ≡ text.old ++ set_text urids.now (properties_of body.now)) }
{
    text.push_str(" set")?;
    push_named(text, urids, Properties::of(body).with_key(PROPERTY))?;
    push_told(alloc, text, urids, Properties::of(body).with_key(VALUE))
}

/// A patch:Put with this body.
fn push_put(alloc: Global, text: &mut Bytes, urids: &Urids, body: &[u8]) -> Result<(), NoMemory>
    ensures { OnOk result (text.new ≡ text.old ++ put_text urids.now (properties_of body.now)) }
{
    text.push_str(" put")?;
    push_all(alloc, text, urids, Properties::of(body).with_key(BODY))
}

/// The URI that a property gives, if it is there.
fn push_named(
    text: &mut Bytes,
    urids: &Urids,
    property: Option<Property<'_>>,
) -> Result<(), NoMemory>
    ensures { OnOk result (text.new ≡ text.old ++ option_map_or (named_text urids.now) (option_map seen property.entry) []) }
{
    let Some(it) = property else {
        return Ok(());
    };
    text.push_str(" ")?;
    push_uri(text, urids, u32_at(it.body, 0))
}

/// The value of a property, if it is there.
fn push_told(
    alloc: Global,
    text: &mut Bytes,
    urids: &Urids,
    property: Option<Property<'_>>,
) -> Result<(), NoMemory>
    ensures { OnOk result (text.new ≡ text.old ++ option_map_or (valued_text urids.now) (option_map seen property.entry) []) }
{
    match property {
        Some(it) => push_valued(alloc, text, urids, it),
        None => Ok(()),
    }
}

/// The properties in the object that a property has, if it is there.
fn push_all(
    alloc: Global,
    text: &mut Bytes,
    urids: &Urids,
    property: Option<Property<'_>>,
) -> Result<(), NoMemory>
    ensures { OnOk result (text.new ≡ text.old ++ option_map_or (all_text urids.now) (option_map seen property.entry) []) }
{
    match property {
        Some(it) => push_pairs(alloc, text, urids, Properties::of(it.body)),
        None => Ok(()),
    }
}

/// Each property with its value, in order.
#[tactic(auto, using(crate::proofs::Joined::one_more))]
fn push_pairs(
    alloc: Global,
    text: &mut Bytes,
    urids: &Urids,
    mut properties: Properties<'_>,
) -> Result<(), NoMemory>
    ensures { OnOk result (text.new ≡ text.old ++ flat_map (pair_text urids.now) properties.entry) }
{
    while let Some(it) = properties.next() {
        push_pair(alloc, text, urids, it)?;
    }
    Ok(())
}

/// A property with its value.
fn push_pair(
    alloc: Global,
    text: &mut Bytes,
    urids: &Urids,
    it: Property<'_>,
) -> Result<(), NoMemory>
    ensures { OnOk result (text.new ≡ text.old ++ pair_text urids.now (seen it.entry)) }
{
    text.push_str(" ")?;
    push_uri(text, urids, it.key)?;
    push_valued(alloc, text, urids, it)
}

fn push_valued(
    alloc: Global,
    text: &mut Bytes,
    urids: &Urids,
    it: Property<'_>,
) -> Result<(), NoMemory>
    ensures { OnOk result (text.new ≡ text.old ++ valued_text urids.now (seen it.entry)) }
{
    text.push_str(" ")?;
    push_value(alloc, text, urids, it)
}
