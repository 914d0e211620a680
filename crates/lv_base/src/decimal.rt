ghost use Rattle.std.specs.Prelude.{◌≡◌, ◌+◌, ◌*◌, ◌^◌, ◌<◌, ◌≤◌, ◌++◌, IsTrue, IfSome, fold, length, min, position, true};
ghost use Rattle.std.specs.List.{list_all};
ghost use Rattle.std.specs.Option.{option_copied};
ghost use Rattle.lv_base.specs.Decimal.{fixed_of, is_dot, is_exponent_mark, is_negative, after_sign, cut_at, are_digits, are_some_digits, is_number, with_digit, units_of, parts_of, signed, in_range};
ghost use Rattle.lv_base.specs.Leading.{capped, digits_kept, leading};

use crate::Fixed;

/// Why a text has no number of type `Fixed`.
#[derive(Clone, Copy)]
pub enum NumFault {
    /// The text isn't a whole INTEGER, DECIMAL or DOUBLE of Turtle 1.1.
    NotNumber,
    /// The number of 2^-24 parts doesn't fit an `i64`.
    Range,
}

/// Parts of 2^-24 in 1.0.
const PARTS: u128 = 1 << 24;
/// Units of 10^-18 in 1.0.
const UNITS: u128 = 1_000_000_000_000_000_000;
/// Numbers are counted up to this. So many units are far out of range, and an exponent as great moves the dot past all digits of any text.
const MOST: u128 = 1_000_000_000_000_000_000_000_000_000_000;
/// A digit with so many zeros after it is at `MOST`.
const MOST_ZEROS: usize = 30;

/// The number that a text stands for, in parts of 2^-24, rounded to the nearest, a half away from zero.
///
/// The text is an INTEGER, a DECIMAL or a DOUBLE of Turtle 1.1, productions [19] to [21], whole and with nothing around it.
/// Fraction digits past the 18th, after the exponent is applied, are dropped before rounding.
/// Exponents of any length are read: the time goes by the length of the text, and no memory is taken.
#[tactic(auto, unfolding(crate::specs::Decimal::fixed_of))]
pub fn parse_decimal(text: &[u8]) -> Result<Fixed, NumFault>
    ensures { result ≡ fixed_of text.now }
{
    let (negative, number) = split_sign(text);
    let (mantissa, exponent) = cut(number, exponent_place(number));
    let (whole, fraction) = cut(mantissa, dot_place(mantissa));
    if !is_number(whole, fraction, exponent) {
        return Err(NumFault::NotNumber);
    }
    let units = units(whole, fraction.unwrap_or(&[]), exponent.unwrap_or(&[]));
    fixed(negative, parts(units))
}

/// Whether a text begins with `-`, and what follows its sign.
pub fn split_sign(text: &[u8]) -> (bool, &[u8])
    ensures negative { result.0 ≡ is_negative text.now }
    ensures rest { result.1.now ≡ after_sign text.now }
{
    match text {
        [b'-', rest @ ..] => (true, rest),
        [b'+', rest @ ..] => (false, rest),
        _ => (false, text),
    }
}

/// Where the first `E` or `e` is.
fn exponent_place(text: &[u8]) -> Option<usize>
    ensures { result ≡ position is_exponent_mark text.now }
{
    text.iter().position(|c| *c == b'E' || *c == b'e')
}

/// Where the first dot is.
fn dot_place(text: &[u8]) -> Option<usize>
    ensures { result ≡ position is_dot text.now }
{
    text.iter().position(|c| *c == b'.')
}

/// What stands before a place, and what follows it. All stands before no place.
fn cut(text: &[u8], place: Option<usize>) -> (&[u8], Option<&[u8]>)
    requires { IfSome place (λ i. i < length text.now) }
    ensures before { result.0.now ≡ (cut_at text.now place).0 }
    ensures after { option_copied result.1 ≡ (cut_at text.now place).1 }
{
    match place {
        Some(i) => (&text[..i], Some(&text[i + 1..])),
        None => (text, None),
    }
}

/// Whether there are digits alone.
pub fn are_digits(text: &[u8]) -> bool
    ensures { result ≡ are_digits text.now }
{
    text.iter().all(|c| c.is_ascii_digit())
}

/// Whether there are digits alone, and at least one.
pub fn are_some_digits(text: &[u8]) -> bool
    ensures { result ≡ are_some_digits text.now }
{
    !text.is_empty() && are_digits(text)
}

/// Whether there are digits alone in both, and at least one.
fn are_some_digits_in(whole: &[u8], fraction: &[u8]) -> bool
    ensures { result ≡ are_some_digits (whole.now ++ fraction.now) }
{
    (!whole.is_empty() || !fraction.is_empty()) && are_digits(whole) && are_digits(fraction)
}

/// Whether the parts of a text are those of an INTEGER, a DECIMAL or a DOUBLE, by the arm.
fn is_number(whole: &[u8], fraction: Option<&[u8]>, exponent: Option<&[u8]>) -> bool
    ensures { result ≡ is_number (record { negative = true; whole = whole.now; fraction = option_copied fraction.entry; exponent = option_copied exponent.entry }) }
{
    match (exponent, fraction) {
        (None, None) => are_some_digits(whole),
        (None, Some(fraction)) => are_digits(whole) && are_some_digits(fraction),
        (Some(exponent), fraction) => {
            let (_, power) = split_sign(exponent);
            are_some_digits(power) && are_some_digits_in(whole, fraction.unwrap_or(&[]))
        }
    }
}

/// The number that digits spell after a number, up to `MOST`.
fn with_digits(start: u128, digits: &[u8]) -> u128
    requires small { start ≤ MOST }
    requires digits { IsTrue (are_digits digits.now) }
    ensures { result ≡ capped (fold with_digit start digits.now) }
{
    let mut number = start;
    for digit in digits {
        number = (number * 10 + u128::from(*digit - b'0')).min(MOST);
    }
    number
}

/// A number with zeros after it, up to `MOST`.
#[tactic(auto, using(crate::proofs::Caps::capped_zero))]
fn with_zeros(start: u128, zeros: usize) -> u128
    requires { start ≤ MOST }
    ensures { result ≡ capped (start * 10 ^ zeros) }
{
    let mut number = start;
    for _ in 0..zeros.min(MOST_ZEROS) {
        number = (number * 10).min(MOST);
    }
    number
}

/// How many digits count, from the first on: those of the whole number and 18 more, as far as the exponent moves the dot.
fn kept(whole: usize, exponent: &[u8]) -> usize
    requires short { whole < 2 ^ 63 }
    requires digits { IsTrue (are_digits (after_sign exponent.now)) }
    ensures { result ≡ min (digits_kept whole exponent.now) usize.MAX }
{
    let (negative, digits) = split_sign(exponent);
    let moved = with_digits(0, digits);
    let kept = whole as u128 + 18;
    let kept = if negative {
        kept.saturating_sub(moved)
    } else {
        kept + moved
    };
    kept.min(usize::MAX as u128) as usize
}

/// The first digits of a number, with zeros where there are fewer, up to `MOST`.
#[tactic(auto, using(crate::proofs::Digits::digits_take))]
fn leading(whole: &[u8], fraction: &[u8], keep: usize) -> u128
    requires whole_digits { IsTrue (are_digits whole.now) }
    requires fraction_digits { IsTrue (are_digits fraction.now) }
    ensures { result ≡ capped (leading keep (whole.now ++ fraction.now)) }
{
    let of_whole = keep.min(whole.len());
    let of_fraction = (keep - of_whole).min(fraction.len());
    let number = with_digits(with_digits(0, &whole[..of_whole]), &fraction[..of_fraction]);
    with_zeros(number, keep - of_whole - of_fraction)
}

/// A magnitude in units of 10^-18, up to `MOST`, from the digits before the dot, those after it and the exponent.
fn units(whole: &[u8], fraction: &[u8], exponent: &[u8]) -> u128
    requires short { length whole.now + length fraction.now < 2 ^ 63 }
    requires whole_digits { IsTrue (are_digits whole.now) }
    requires fraction_digits { IsTrue (are_digits fraction.now) }
    requires exponent_digits { IsTrue (are_digits (after_sign exponent.now)) }
    ensures { result ≡ capped (units_of whole.now fraction.now exponent.now) }
{
    leading(whole, fraction, kept(whole.len(), exponent))
}

/// Units in parts of 2^-24, to the nearest, a half up.
fn parts(units: u128) -> u128
    requires { units ≤ MOST }
    ensures { result ≡ parts_of units }
{
    (2 * PARTS * units + UNITS) / (2 * UNITS)
}

/// A magnitude with its sign, if it fits.
fn fixed(negative: bool, parts: u128) -> Result<Fixed, NumFault>
    requires { parts < 2 ^ 127 }
    ensures { result ≡ in_range (signed negative parts) }
{
    let magnitude = parts as i128;
    let parts = if negative { -magnitude } else { magnitude };
    match i64::try_from(parts) {
        Ok(parts) => Ok(Fixed(parts)),
        Err(_) => Err(NumFault::Range),
    }
}
