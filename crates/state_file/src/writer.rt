ghost use Rattle.std.specs.Prelude.{◌≡◌, ◌++◌, map, decimal, IfOk, OnOk};
ghost use Rattle.base64.specs.Engines.{standard};
ghost use Rattle.base64.specs.GeneralPurpose.{encode_of};
ghost use Rattle.std.specs.Option.{option_copied};
ghost use Rattle.state_file.specs.Order.{uri_text, in_order};
ghost use Rattle.state_file.specs.StateText.{type_text, bytes_text, value_text, held_text, property_text, line_end, line_text, properties_text, name_text, plugin_text, head_text, saved_text, states_text, state_text};

use crate::Saved;
use crate::order::{in_order, uri_text};
use base64::engine::general_purpose::STANDARD;
use lv_base::{Bytes, NoMemory, Text};
use state_store::{Prop, Props};
use std::alloc::Global;
use urid_map::Urids;

/// The prefixes that the states use.
const PREFIXES: &str =
    "@prefix state: <http://lv2plug.in/ns/ext/state#> .\n@prefix fx: <urn:lv2fx:> .\n";

/// The text of a state file with these states. Keys and types stand there as the URIs with their numbers, and properties in the byte
/// order of their keys' URIs.
pub fn write(alloc: Global, saves: &[Saved], urids: &Urids) -> Result<Bytes, NoMemory>
    ensures { IfOk result (λ text. text ≡ state_text urids.now saves.now) }
{
    let mut text = Bytes::new(alloc);
    text.push_str(PREFIXES)?;
    push_states(alloc, &mut text, saves, urids)?;
    Ok(text)
}

fn push_states(
    alloc: Global,
    text: &mut Bytes,
    saves: &[Saved],
    urids: &Urids,
) -> Result<(), NoMemory>
    ensures { OnOk result (text.new ≡ text.old ++ states_text urids.now 0 saves.now) }
{
    for (number, saved) in saves.iter().enumerate() {
        push_saved(alloc, text, number, saved, urids)?;
    }
    Ok(())
}

fn push_saved(
    alloc: Global,
    text: &mut Bytes,
    number: usize,
    saved: &Saved,
    urids: &Urids,
) -> Result<(), NoMemory>
    ensures { OnOk result (text.new ≡ text.old ++ saved_text urids.now number saved.now) }
{
    push_head(text, number, saved)?;
    push_properties(alloc, text, &saved.props, urids)?;
    text.push_str("\t] .\n")
}

fn push_head(text: &mut Bytes, number: usize, saved: &Saved) -> Result<(), NoMemory>
    ensures { OnOk result (text.new ≡ text.old ++ head_text number saved.now) }
{
    push_name(text, number, &saved.name)?;
    push_plugin(text, &saved.uri)
}

fn push_name(text: &mut Bytes, number: usize, name: &Text) -> Result<(), NoMemory>
    ensures { OnOk result (text.new ≡ text.old ++ name_text number name.now) }
{
    text.push_str("\n<#save")?;
    text.push_decimal(number as u64)?;
    text.push_str("> a fx:Saved ;\n\tfx:name \"")?;
    push_text(text, name)
}

fn push_plugin(text: &mut Bytes, uri: &Text) -> Result<(), NoMemory>
    ensures { OnOk result (text.new ≡ text.old ++ plugin_text uri.now) }
{
    text.push_str("\" ;\n\tfx:plugin <")?;
    push_text(text, uri)?;
    text.push_str("> ;\n\tstate:state [\n")
}

fn push_text(text: &mut Bytes, more: &Text) -> Result<(), NoMemory>
    ensures { OnOk result (text.new ≡ text.old ++ more.now) }
{
    text.push_str(more.as_str())
}

fn push_properties(
    alloc: Global,
    text: &mut Bytes,
    props: &Props,
    urids: &Urids,
) -> Result<(), NoMemory>
    ensures { OnOk result (text.new ≡ text.old ++ properties_text urids.now props.now (in_order urids.now (map (λ row. row.0) props.now))) }
{
    let keys = in_order(alloc, props, urids)?;
    push_lines(alloc, text, props, urids, keys.as_slice())
}

fn push_lines(
    alloc: Global,
    text: &mut Bytes,
    props: &Props,
    urids: &Urids,
    keys: &[u32],
) -> Result<(), NoMemory>
    ensures { OnOk result (text.new ≡ text.old ++ properties_text urids.now props.now keys.now) }
{
    let mut left = keys;
    while let Some((key, rest)) = left.split_first() {
        push_line(alloc, text, props, urids, *key, rest)?;
        left = rest;
    }
    Ok(())
}

fn push_line(
    alloc: Global,
    text: &mut Bytes,
    props: &Props,
    urids: &Urids,
    key: u32,
    keys: &[u32],
) -> Result<(), NoMemory>
    ensures { OnOk result (text.new ≡ text.old ++ line_text urids.now props.now key keys.now) }
{
    push_property(alloc, text, props, urids, key)?;
    text.push_str(line_end(keys))
}

/// What ends the line of a property, by those that follow.
fn line_end(keys: &[u32]) -> &'static str
    ensures { result.now ≡ line_end keys.now }
{
    if keys.is_empty() { "\n" } else { " ;\n" }
}

fn push_property(
    alloc: Global,
    text: &mut Bytes,
    props: &Props,
    urids: &Urids,
    key: u32,
) -> Result<(), NoMemory>
    ensures { OnOk result (text.new ≡ text.old ++ property_text urids.now props.now key) }
{
    text.push_str("\t\t<")?;
    push_uri(text, urids, key)?;
    text.push_str("> ")?;
    push_held(alloc, text, props.retrieve(key), urids)
}

fn push_held(
    alloc: Global,
    text: &mut Bytes,
    held: Option<&Prop>,
    urids: &Urids,
) -> Result<(), NoMemory>
    ensures { OnOk result (text.new ≡ text.old ++ held_text urids.now (option_copied held.entry)) }
{
    match held {
        None => Ok(()),
        Some(prop) => push_value(alloc, text, prop, urids),
    }
}

fn push_value(alloc: Global, text: &mut Bytes, prop: &Prop, urids: &Urids) -> Result<(), NoMemory>
    ensures { OnOk result (text.new ≡ text.old ++ value_text urids.now prop.now) }
{
    push_type(text, prop, urids)?;
    push_bytes(alloc, text, prop)
}

fn push_type(text: &mut Bytes, prop: &Prop, urids: &Urids) -> Result<(), NoMemory>
    ensures { OnOk result (text.new ≡ text.old ++ type_text urids.now prop.now) }
{
    text.push_str("[ fx:type <")?;
    push_uri(text, urids, prop.kind)?;
    text.push_str("> ; fx:flags ")?;
    push_number(text, prop.flags)
}

fn push_bytes(alloc: Global, text: &mut Bytes, prop: &Prop) -> Result<(), NoMemory>
    ensures { OnOk result (text.new ≡ text.old ++ bytes_text prop.now) }
{
    text.push_str(" ; fx:bytes \"")?;
    push_encoded(alloc, text, &prop.bytes)?;
    text.push_str("\" ]")
}

fn push_uri(text: &mut Bytes, urids: &Urids, number: u32) -> Result<(), NoMemory>
    ensures { OnOk result (text.new ≡ text.old ++ uri_text urids.now number) }
{
    text.push_str(uri_text(urids, number))
}

fn push_number(text: &mut Bytes, number: u32) -> Result<(), NoMemory>
    ensures { OnOk result (text.new ≡ text.old ++ decimal number) }
{
    text.push_decimal(u64::from(number))
}

fn push_encoded(alloc: Global, text: &mut Bytes, bytes: &Bytes) -> Result<(), NoMemory>
    ensures { OnOk result (text.new ≡ text.old ++ encode_of standard bytes.now) }
{
    let encoded = STANDARD.encode(alloc, bytes.as_slice())?;
    text.push_str(encoded.as_str())
}
