ghost use Rattle.std.specs.Prelude.{◌≡◌, ◌++◌, OnOk};
ghost use Rattle.std.specs.Fmt.{signed_decimal};
ghost use Rattle.std.specs.Int.{w32, w64, cast_signed};
ghost use Rattle.base64.specs.Engines.{standard};
ghost use Rattle.base64.specs.GeneralPurpose.{encode_of};
ghost use Rattle.atom_core.specs.Place.{number_at, wide_at};
ghost use Rattle.object_properties.specs.Properties.{seen};
ghost use Rattle.play_outcome.specs.Messages.{uri_text, value_text};
ghost use Rattle.notice_text.specs.Pieces.{urid_text, bytes_text};

use base64::engine::general_purpose::STANDARD;
use itoa::Buffer;
use lv_base::{Bytes, NoMemory};
use object_properties::{Property, i32_at, i64_at, u32_at};
use std::alloc::Global;
use urid_map::Urids;

/// The types of atoms whose values are written as numbers and URIs.
const INT: u32 = 1;

const LONG: u32 = 2;

const BOOL: u32 = 3;

const URID: u32 = 4;

const FIXED: u32 = 14;

/// A value, by the type of its atom.
pub fn push_value(
    alloc: Global,
    text: &mut Bytes,
    urids: &Urids,
    it: Property<'_>,
) -> Result<(), NoMemory>
    ensures { OnOk result (text.new ≡ text.old ++ value_text urids.now (seen it.entry)) }
{
    match it.kind {
        INT => push_short(text, "int ", it.body),
        LONG => push_wide(text, "long ", it.body),
        BOOL => push_short(text, "bool ", it.body),
        FIXED => push_wide(text, "fixed ", it.body),
        URID => push_urid(text, urids, it.body),
        _ => push_bytes(alloc, text, urids, it),
    }
}

/// A word, and the number in four bytes.
fn push_short(text: &mut Bytes, word: &str, body: &[u8]) -> Result<(), NoMemory>
    ensures { OnOk result (text.new ≡ text.old ++ (word.now ++ signed_decimal (cast_signed w32 (number_at body.now 0)))) }
{
    text.push_str(word)?;
    push_signed(text, i64::from(i32_at(body, 0)))
}

/// A word, and the number in eight bytes.
fn push_wide(text: &mut Bytes, word: &str, body: &[u8]) -> Result<(), NoMemory>
    ensures { OnOk result (text.new ≡ text.old ++ (word.now ++ signed_decimal (cast_signed w64 (wide_at body.now 0)))) }
{
    text.push_str(word)?;
    push_signed(text, i64_at(body, 0))
}

fn push_signed(text: &mut Bytes, number: i64) -> Result<(), NoMemory>
    ensures { OnOk result (text.new ≡ text.old ++ signed_decimal number) }
{
    let mut digits = Buffer::new();
    text.push_str(digits.format(number))
}

/// The URI whose number stands in four bytes.
fn push_urid(text: &mut Bytes, urids: &Urids, body: &[u8]) -> Result<(), NoMemory>
    ensures { OnOk result (text.new ≡ text.old ++ urid_text urids.now body.now) }
{
    text.push_str("urid ")?;
    push_uri(text, urids, u32_at(body, 0))
}

/// A type by its URI, and the bytes of the body.
fn push_bytes(
    alloc: Global,
    text: &mut Bytes,
    urids: &Urids,
    it: Property<'_>,
) -> Result<(), NoMemory>
    ensures { OnOk result (text.new ≡ text.old ++ bytes_text urids.now (seen it.entry)) }
{
    text.push_str("bytes ")?;
    push_uri(text, urids, it.kind)?;
    text.push_str(" ")?;
    push_encoded(alloc, text, it.body)
}

fn push_encoded(alloc: Global, text: &mut Bytes, bytes: &[u8]) -> Result<(), NoMemory>
    ensures { OnOk result (text.new ≡ text.old ++ encode_of standard bytes.now) }
{
    let encoded = STANDARD.encode(alloc, bytes)?;
    text.push_str(encoded.as_str())
}

/// The URI with a number, or a dash.
pub fn push_uri(text: &mut Bytes, urids: &Urids, number: u32) -> Result<(), NoMemory>
    ensures { OnOk result (text.new ≡ text.old ++ uri_text urids.now number) }
{
    match urids.unmap(number) {
        Some(uri) => text.push_str(uri.as_str()),
        None => text.push_str("-"),
    }
}
