ghost use Rattle.std.specs.Prelude.{◌≡◌, IfOk, IfSome, IsTrue, option_map, option_and_then, Some, min};
ghost use Rattle.std.specs.Option.{option_copied};
ghost use Rattle.iri_resolve.specs.Iri.{is_iri_text};
ghost use Rattle.lv_base.specs.Decimal.{are_digits, number_of, signed};
ghost use Rattle.state_file.specs.States.{key_in, kind_in, flags_term, bytes_term, flags_in, bytes_in};
ghost use Rattle.state_file.specs.Objects.{text_in};
ghost use Rattle.state_file.specs.Values.{in_full, as_flags, flags_of, bytes_of};

use crate::objects::{Kind, iri, one, text};
use base64::DecodeAllocError;
use base64::engine::general_purpose::STANDARD;
use lv_base::{NoMemory, Text, are_some_digits, split_sign};
use std::alloc::Global;
use triple_store::{Store, Term, Triple};
use urid_map::is_iri_text;
use vocabulary::Word;

/// Numbers are counted up to this, which is above all flags.
const BEYOND: u32 = 1 << 16;

fn in_full(iri: &Text) -> Option<&Text>
    ensures value { option_copied result ≡ in_full iri.now }
    ensures iri { IfSome result (λ iri. IsTrue (is_iri_text iri.now)) }
{
    if is_iri_text(iri) { Some(iri) } else { None }
}

/// The key of a property.
#[tactic(auto, unfolding(crate::specs::States::key_in))]
pub(crate) fn key(property: &Triple) -> Option<&Text>
    ensures value { option_copied result ≡ key_in property.now }
    ensures iri { IfSome result (λ iri. IsTrue (is_iri_text iri.now)) }
{
    in_full(iri(&property.p)?)
}

/// The type of its value.
#[tactic(auto, unfolding(crate::specs::States::kind_in))]
pub(crate) fn kind<'a>(store: &'a Store, property: &'a Triple) -> Option<&'a Text>
    ensures value { option_copied result ≡ kind_in store.now property.now }
    ensures iri { IfSome result (λ iri. IsTrue (is_iri_text iri.now)) }
{
    let term = one(store, &property.o, Word::FxType, Kind::OneIri)?;
    in_full(iri(term)?)
}

/// The term that says its flags.
#[tactic(auto, unfolding(crate::specs::States::flags_term))]
pub(crate) fn flags_term<'a>(store: &'a Store, property: &'a Triple) -> Option<&'a Term>
    ensures { option_copied result ≡ flags_term store.now property.now }
{
    one(store, &property.o, Word::FxFlags, Kind::Whichever)
}

/// The term that says its bytes.
#[tactic(auto, unfolding(crate::specs::States::bytes_term))]
pub(crate) fn bytes_term<'a>(store: &'a Store, property: &'a Triple) -> Option<&'a Term>
    ensures { option_copied result ≡ bytes_term store.now property.now }
{
    one(store, &property.o, Word::FxBytes, Kind::Whichever)
}

/// Its flags, if they are 3 or 7.
#[tactic(auto, unfolding(crate::specs::States::flags_in))]
pub(crate) fn flags(store: &Store, property: &Triple) -> Option<u32>
    ensures { result ≡ flags_in store.now property.now }
{
    let text = text(flags_term(store, property)?)?;
    flags_of(text.as_bytes())
}

fn flags_of(text: &[u8]) -> Option<u32>
    ensures { result ≡ flags_of text.now }
{
    let (negative, digits) = split_sign(text);
    if !are_some_digits(digits) {
        return None;
    }
    as_flags(negative, number_of(digits))
}

/// A number that was counted up to `BEYOND`, with its sign, if it is 3 or 7.
fn as_flags(negative: bool, number: u32) -> Option<u32>
    ensures { result ≡ as_flags (Some (signed negative number)) }
{
    if !negative && (number == 3 || number == 7) {
        Some(number)
    } else {
        None
    }
}

/// The number that digits spell, up to `BEYOND`.
fn number_of(digits: &[u8]) -> u32
    requires { IsTrue (are_digits digits.now) }
    ensures { result ≡ min (number_of digits.now) BEYOND }
{
    let mut number = 0;
    for digit in digits {
        number = (number * 10 + u32::from(*digit - b'0')).min(BEYOND);
    }
    number
}

/// Its bytes, if they are in canonical base64.
#[tactic(auto, unfolding(crate::specs::States::bytes_in))]
pub(crate) fn bytes(
    alloc: Global,
    store: &Store,
    property: &Triple,
) -> Result<Option<Vec<u8>>, NoMemory>
    ensures { IfOk result (λ bytes. option_map (λ vec. vec.items) bytes ≡ bytes_in store.now property.now) }
{
    match bytes_term(store, property) {
        None => Ok(None),
        Some(term) => bytes_in(alloc, term),
    }
}

fn bytes_in(alloc: Global, term: &Term) -> Result<Option<Vec<u8>>, NoMemory>
    ensures { IfOk result (λ bytes. option_map (λ vec. vec.items) bytes ≡ option_and_then bytes_of (text_in term.now)) }
{
    match text(term) {
        None => Ok(None),
        Some(text) => decoded(alloc, text.as_bytes()),
    }
}

#[tactic(auto, unfolding(crate::specs::Values::bytes_of))]
fn decoded(alloc: Global, text: &[u8]) -> Result<Option<Vec<u8>>, NoMemory>
    ensures { IfOk result (λ bytes. option_map (λ vec. vec.items) bytes ≡ bytes_of text.now) }
{
    match STANDARD.decode(alloc, text) {
        Ok(bytes) => Ok(Some(bytes)),
        Err(DecodeAllocError::DecodeError(_)) => Ok(None),
        Err(DecodeAllocError::OutOfMemory) => Err(NoMemory),
    }
}
