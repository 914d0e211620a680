ghost use Rattle.std.specs.Prelude.{◌≡◌, ◌≤◌, IfSome, IsTrue, Some, find, min};
ghost use Rattle.std.specs.Option.{option_copied};
ghost use Rattle.lv_base.specs.Decimal.{is_negative, after_sign, are_digits, are_some_digits, number_of, signed};
ghost use Rattle.plugin_decl.specs.Objects.{objects_of};
ghost use Rattle.plugin_decl.specs.Values.{text_in, iri_in, is_literal, is_untagged, name_in, integer_of, up_to, natural_in, value_of, value_in};

use crate::objects::objects;
use lv_base::{Fixed, Text, are_digits, are_some_digits, parse_decimal, split_sign};
use triple_store::{Store, Term};
use vocabulary::Word;

/// Numbers are counted up to this, which no `u32` reaches.
const BEYOND: u64 = 1 << 32;

/// The text of a literal.
pub(crate) fn text(term: &Term) -> Option<&Text>
    ensures { option_copied result ≡ text_in term.now }
{
    match term {
        Term::Literal { text, .. } => Some(text),
        _ => None,
    }
}

/// The IRI that a term is.
pub(crate) fn iri(term: &Term) -> Option<&Text>
    ensures { option_copied result ≡ iri_in term.now }
{
    match term {
        Term::Iri(iri) => Some(iri),
        _ => None,
    }
}

/// Whether it is a literal.
pub(crate) fn is_literal(term: &Term) -> bool
    ensures { result ≡ is_literal term.now }
{
    matches!(term, Term::Literal { .. })
}

/// Whether it is a literal without a language tag.
pub(crate) fn is_untagged(term: &Term) -> bool
    ensures { result ≡ is_untagged term.now }
{
    match term {
        Term::Literal { lang, .. } => lang.as_str().is_empty(),
        _ => false,
    }
}

fn untagged<'a>(store: &'a Store, subject: &'a Term, predicate: Word) -> Option<&'a Term>
    ensures { option_copied result ≡ find is_untagged (objects_of store.now subject.now predicate) }
{
    objects(store, subject, predicate).find(|name| is_untagged(*name))
}

fn literal<'a>(store: &'a Store, subject: &'a Term, predicate: Word) -> Option<&'a Term>
    ensures { option_copied result ≡ find is_literal (objects_of store.now subject.now predicate) }
{
    objects(store, subject, predicate).find(|name| is_literal(*name))
}

/// Of several names the first without a language tag, else the first.
#[tactic(auto, unfolding(crate::specs::Values::name_in))]
pub(crate) fn name<'a>(store: &'a Store, subject: &'a Term, predicate: Word) -> Option<&'a Text>
    ensures { option_copied result ≡ name_in (objects_of store.now subject.now predicate) }
{
    match untagged(store, subject, predicate) {
        Some(name) => text(name),
        None => text(literal(store, subject, predicate)?),
    }
}

/// The integer from 0 to `most` that a literal of any datatype says.
#[tactic(auto, unfolding(crate::specs::Values::natural_in))]
pub(crate) fn natural(most: u32, term: &Term) -> Option<u32>
    ensures value { result ≡ natural_in most term.now }
    ensures within { IfSome result (λ number. number ≤ most) }
{
    let text = text(term)?;
    natural_of(most, text.as_bytes())
}

/// The integer from 0 to `most` that a text says: `[+-]?[0-9]+`, by its value.
fn natural_of(most: u32, text: &[u8]) -> Option<u32>
    ensures value { result ≡ up_to most (integer_of text.now) }
    ensures within { IfSome result (λ number. number ≤ most) }
{
    let (negative, digits) = split_sign(text);
    if !are_some_digits(digits) {
        return None;
    }
    within(most, negative, number_of(digits))
}

/// A number that was counted up to `BEYOND`, with its sign, if it is from 0 to `most`.
fn within(most: u32, negative: bool, number: u64) -> Option<u32>
    ensures value { result ≡ up_to most (Some (signed negative number)) }
    ensures within { IfSome result (λ number. number ≤ most) }
{
    if number > u64::from(most) || (negative && number > 0) {
        return None;
    }
    Some(number as u32)
}

/// The number that digits spell, up to `BEYOND`.
fn number_of(digits: &[u8]) -> u64
    requires { IsTrue (are_digits digits.now) }
    ensures { result ≡ min (number_of digits.now) BEYOND }
{
    let mut number = 0;
    for digit in digits {
        number = (number * 10 + u64::from(*digit - b'0')).min(BEYOND);
    }
    number
}

/// The control value that a literal of any datatype says.
#[tactic(auto, unfolding(crate::specs::Values::value_in))]
pub(crate) fn value(term: &Term) -> Option<Fixed>
    ensures { result ≡ value_in term.now }
{
    let text = text(term)?;
    value_of(text.as_bytes())
}

/// `true` is 1.0 and `false` 0; else it is the decimal number.
fn value_of(text: &[u8]) -> Option<Fixed>
    ensures { result ≡ value_of text.now }
{
    if text == "true".as_bytes() {
        Some(Fixed(1 << 24))
    } else if text == "false".as_bytes() {
        Some(Fixed(0))
    } else {
        parse_decimal(text).ok()
    }
}
