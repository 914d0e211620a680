ghost use Rattle.std.specs.Prelude.{◌≡◌, ◌-◌, ◌^◌, ◌<◌, ◌≤◌, ◌/◌, IsTrue, ◌∷◌, length, min, position, IfSome};
ghost use Rattle.std.specs.Option.{option_copied};
ghost use Rattle.session_script.specs.Judged.{segments_in};
ghost use Rattle.std.specs.List.{list_all, list_any, slice_split};
ghost use Rattle.std.specs.Char.{is_ascii_digit as is_digit};
ghost use Rattle.lv_base.specs.Decimal as decimal;
ghost use Rattle.iri_resolve.specs.Excluded as excluded;
ghost use Rattle.session_script.specs.Words as text;
ghost use Rattle.session_script.specs.Words.{value_of};
ghost use Rattle.session_script.specs.Sorts as spec;

use iri_resolve::has_scheme;
use lv_base::{Fixed, NumFault, parse_decimal};

/// Numbers are counted up to this, which is far above every limit.
pub(crate) const MOST: u64 = 1_000_000_000_000_000_000;

/// Decimal digits.
pub(crate) fn is_number(word: &str) -> bool
    ensures { result ≡ spec.is_number word.now }
{
    are_some_digits(word.as_bytes())
}

fn are_some_digits(word: &[u8]) -> bool
    ensures { result ≡ spec.is_number word.now }
{
    !word.is_empty() && are_digits(word)
}

fn are_digits(word: &[u8]) -> bool
    ensures { result ≡ list_all is_digit word.now }
{
    word.iter().all(|byte| byte.is_ascii_digit())
}

/// The number that digits say, up to `MOST`.
pub(crate) fn number(word: &str) -> u64
    ensures { result ≡ min (value_of word.now) MOST }
{
    number_of(word.as_bytes())
}

fn number_of(digits: &[u8]) -> u64
    ensures { result ≡ min (value_of digits.now) MOST }
{
    let mut number = 0;
    for digit in digits {
        number = (number * 10 + u64::from(digit.saturating_sub(b'0'))).min(MOST);
    }
    number
}

/// The number that digits say, if it is small.
pub(crate) fn small_number(word: &str) -> u32
    requires { value_of word.now < 2 ^ 32 }
    ensures { result ≡ value_of word.now }
{
    number(word) as u32
}

/// Decimal digits after an optional sign.
pub(crate) fn is_integer(word: &str) -> bool
    ensures { result ≡ spec.is_integer word.now }
{
    let (_, digits) = split_sign(word.as_bytes());
    are_some_digits(digits)
}

/// Whether a word begins with `-`, and what follows its sign.
fn split_sign(word: &[u8]) -> (bool, &[u8])
    ensures negative { result.0 ≡ decimal.is_negative word.now }
    ensures rest { result.1.now ≡ decimal.after_sign word.now }
{
    match word {
        [b'-', rest @ ..] => (true, rest),
        [b'+', rest @ ..] => (false, rest),
        _ => (false, word),
    }
}

/// Whether an integer is from -2^31 to 2^31 - 1.
pub(crate) fn fits_i32(word: &str) -> bool
    ensures { result ≡ spec.fits_i32 word.now }
{
    let (negative, digits) = split_sign(word.as_bytes());
    if negative {
        number_of(digits) <= 2_147_483_648
    } else {
        number_of(digits) < 2_147_483_648
    }
}

/// The number of an integer that fits.
pub(crate) fn integer(word: &str) -> i32
    requires { IsTrue (spec.fits_i32 word.now) }
    ensures { result ≡ spec.integer_value word.now }
{
    let (negative, digits) = split_sign(word.as_bytes());
    let magnitude = number_of(digits) as i64;
    let value = if negative { -magnitude } else { magnitude };
    value as i32
}

/// An INTEGER, a DECIMAL or a DOUBLE of Turtle 1.1.
pub(crate) fn is_decimal(word: &str) -> bool
    ensures { result ≡ spec.is_decimal word.now }
{
    match parse_decimal(word.as_bytes()) {
        Err(NumFault::NotNumber) => false,
        Err(NumFault::Range) => true,
        Ok(_) => true,
    }
}

/// A decimal that is in range.
pub(crate) fn fits_fixed(word: &str) -> bool
    ensures { result ≡ spec.fits_fixed word.now }
{
    parse_decimal(word.as_bytes()).is_ok()
}

/// The number of a decimal that is in range.
pub(crate) fn decimal_value(word: &str) -> Fixed
    ensures { result ≡ spec.fixed_value word.now }
{
    parse_decimal(word.as_bytes()).unwrap_or(Fixed(0))
}

/// `_` or a letter, and then these and digits, in all at most 32 bytes.
pub(crate) fn is_name(word: &str) -> bool
    ensures { result ≡ text.is_name word.now }
{
    is_name_of(word.as_bytes())
}

fn is_name_of(word: &[u8]) -> bool
    ensures { result ≡ text.is_name word.now }
{
    if word.is_empty() || !is_letter(word[0]) || word.len() > 32 {
        return false;
    }
    are_name_bytes(word)
}

fn are_name_bytes(word: &[u8]) -> bool
    ensures { result ≡ list_all text.is_name_byte word.now }
{
    word.iter().all(|byte| is_name_byte(*byte))
}

fn is_name_byte(byte: u8) -> bool
    ensures { result ≡ text.is_name_byte byte }
{
    is_letter(byte) || byte.is_ascii_digit()
}

fn is_letter(byte: u8) -> bool
    ensures { result ≡ text.is_letter byte }
{
    matches!(byte, b'_' | b'A'..=b'Z' | b'a'..=b'z')
}

/// A path below a folder: at most 512 bytes, no `/` at the beginning, and no empty, `.` or `..` segment.
pub(crate) fn is_path(path: &str) -> bool
    ensures { result ≡ spec.is_path path.now }
{
    is_path_of(path.as_bytes())
}

fn is_path_of(path: &[u8]) -> bool
    ensures { result ≡ spec.is_path path.now }
{
    path.len() <= 512 && !path.starts_with("/".as_bytes()) && are_segments(path)
}

/// Whether each part between the `/` may stand there.
fn are_segments(path: &[u8]) -> bool
    ensures { result ≡ list_all spec.is_segment (slice_split spec.is_slash path.now) }
{
    let mut left = Some(path);
    while let Some(rest) = left {
        let (segment, more) = cut_segment(rest);
        if !is_segment(segment) {
            return false;
        }
        left = more;
    }
    true
}

/// The first segment of a path, and what follows its `/`.
fn cut_segment(path: &[u8]) -> (&[u8], Option<&[u8]>)
    ensures cut { slice_split spec.is_slash path.now ≡ result.0.now ∷ segments_in (option_copied result.1) }
    ensures shorter { IfSome result.1 (λ rest. length rest.now < length path.now) }
{
    match slash_in(path) {
        Some(end) => (&path[..end], Some(&path[end + 1..])),
        None => (path, None),
    }
}

fn slash_in(path: &[u8]) -> Option<usize>
    ensures { result ≡ position spec.is_slash path.now }
{
    path.iter().position(|byte| *byte == b'/')
}

fn is_segment(part: &[u8]) -> bool
    ensures { result ≡ spec.is_segment part.now }
{
    !part.is_empty() && part != ".".as_bytes() && part != "..".as_bytes()
}

/// A path without the one `/` that may end it.
pub(crate) fn without_slash(path: &str) -> &str
    ensures { result.now ≡ spec.without_slash path.now }
{
    match path.as_bytes() {
        [.., b'/'] => &path[..path.len() - 1],
        _ => path,
    }
}

/// It has a scheme, and no character that may not stand in an IRI.
pub(crate) fn is_iri(word: &str) -> bool
    ensures { result ≡ spec.is_iri word.now }
{
    has_scheme(word.as_bytes()) && !has_excluded(word.as_bytes())
}

fn has_excluded(word: &[u8]) -> bool
    ensures { result ≡ list_any excluded.is_excluded word.now }
{
    word.iter().any(|byte| iri_resolve::is_excluded(*byte))
}
