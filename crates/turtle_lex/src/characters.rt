ghost use Rattle.std.specs.Prelude.{◌≡◌, codes};
ghost use Rattle.turtle_grammar.specs.Characters.{among, is_white, is_line_end, is_digit, is_letter, is_letter_or_digit, is_hex, is_sign, is_exponent, is_escape, is_name_base, is_name_start, is_name_char, is_local_escape};
ghost use Rattle.turtle_grammar.specs.Terminals.{is_hex_but_d};
ghost use Rattle.turtle_lex.specs.Names.{is_local_start, is_local_char};
ghost use Rattle.turtle_lex.specs.Places.{IsPlace, ReadsChar};

use crate::class::Class;

/// The character at a place, and the place after it. None at the end.
#[inline(always)]
pub fn char_at(text: &str, at: usize) -> Option<(char, usize)>
    requires { IsPlace text.now at }
    ensures { ReadsChar text.now at result }
{
    let bytes = text.as_bytes();
    if at >= bytes.len() {
        return None;
    }
    let byte = bytes[at];
    if byte < 128 {
        return Some((char::from(byte), at + 1));
    }
    decoded_at(text, at)
}

/// The same by decoding UTF-8, apart from the path of ASCII.
#[inline(never)]
fn decoded_at(text: &str, at: usize) -> Option<(char, usize)>
    requires { IsPlace text.now at }
    ensures { ReadsChar text.now at result }
{
    match text[at..].chars().next() {
        Some(found) => Some((found, at + found.len_utf8())),
        None => None,
    }
}

#[tactic(auto, unfolding(turtle_grammar::specs::Characters::is_white))]
pub fn is_white(c: char) -> bool
    ensures { result ≡ is_white c }
{
    matches!(c, ' ' | '\t' | '\r' | '\n')
}

#[tactic(auto, unfolding(turtle_grammar::specs::Characters::is_digit))]
pub fn is_digit(c: char) -> bool
    ensures { result ≡ is_digit c }
{
    matches!(c, '0'..='9')
}

#[tactic(auto, unfolding(turtle_grammar::specs::Characters::is_hex, turtle_grammar::specs::Characters::is_digit))]
pub fn is_hex(c: char) -> bool
    ensures { result ≡ is_hex c }
{
    matches!(c, '0'..='9' | 'A'..='F' | 'a'..='f')
}

#[tactic(auto, unfolding(turtle_grammar::specs::Characters::is_escape))]
pub fn is_escape(c: char) -> bool
    ensures { result ≡ is_escape c }
{
    matches!(c, 't' | 'b' | 'n' | 'r' | 'f' | '"' | '\'' | '\\')
}

#[tactic(auto, unfolding(turtle_grammar::specs::Characters::is_hex, turtle_grammar::specs::Characters::is_digit))]
pub fn is_hex_but_d(c: char) -> bool
    ensures { result ≡ is_hex_but_d c }
{
    matches!(c, '0'..='9' | 'A'..='C' | 'E'..='F' | 'a'..='c' | 'e'..='f')
}

/// Whether a surrogate's number may begin so.
pub fn is_d(c: char) -> bool
    ensures { result ≡ among (codes "Dd") c }
{
    matches!(c, 'D' | 'd')
}

#[tactic(auto, unfolding(turtle_grammar::specs::Characters::is_sign))]
pub fn is_sign(c: char) -> bool
    ensures { result ≡ is_sign c }
{
    matches!(c, '+' | '-')
}

#[tactic(auto, unfolding(turtle_grammar::specs::Characters::is_exponent))]
pub fn is_exponent(c: char) -> bool
    ensures { result ≡ is_exponent c }
{
    matches!(c, 'e' | 'E')
}

#[tactic(auto, unfolding(turtle_grammar::specs::Characters::is_letter))]
pub fn is_letter(c: char) -> bool
    ensures { result ≡ is_letter c }
{
    matches!(c, 'A'..='Z' | 'a'..='z')
}

#[tactic(auto, unfolding(turtle_grammar::specs::Characters::is_letter_or_digit, turtle_grammar::specs::Characters::is_letter, turtle_grammar::specs::Characters::is_digit))]
pub fn is_letter_or_digit(c: char) -> bool
    ensures { result ≡ is_letter_or_digit c }
{
    matches!(c, 'A'..='Z' | 'a'..='z' | '0'..='9')
}

#[tactic(auto, unfolding(turtle_grammar::specs::Characters::is_line_end))]
pub fn is_line_end(c: char) -> bool
    ensures { result ≡ is_line_end c }
{
    matches!(c, '\n' | '\r')
}

/// PN_CHARS_BASE [163s] of Turtle.
#[inline(always)]
#[tactic(auto, unfolding(turtle_grammar::specs::Characters::is_name_base, turtle_grammar::specs::Characters::is_letter))]
pub fn is_name_base(c: char) -> bool
    ensures { result ≡ is_name_base c }
{
    if (c as u32) < 128 {
        matches!(c, 'A'..='Z' | 'a'..='z')
    } else {
        is_wide_name_base(c)
    }
}

/// The same by its ranges, apart from the path of ASCII.
#[inline(never)]
#[tactic(auto, unfolding(turtle_grammar::specs::Characters::is_name_base, turtle_grammar::specs::Characters::is_letter))]
fn is_wide_name_base(c: char) -> bool
    ensures { result ≡ is_name_base c }
{
    matches!(
        c,
        'A'..='Z'
            | 'a'..='z'
            | '\u{C0}'..='\u{D6}'
            | '\u{D8}'..='\u{F6}'
            | '\u{F8}'..='\u{2FF}'
            | '\u{370}'..='\u{37D}'
            | '\u{37F}'..='\u{1FFF}'
            | '\u{200C}'..='\u{200D}'
            | '\u{2070}'..='\u{218F}'
            | '\u{2C00}'..='\u{2FEF}'
            | '\u{3001}'..='\u{D7FF}'
            | '\u{F900}'..='\u{FDCF}'
            | '\u{FDF0}'..='\u{FFFD}'
            | '\u{10000}'..='\u{EFFFF}'
    )
}

/// PN_CHARS_U [164s] of Turtle.
#[inline(always)]
#[tactic(auto, unfolding(turtle_grammar::specs::Characters::is_name_start))]
pub fn is_name_start(c: char) -> bool
    ensures { result ≡ is_name_start c }
{
    is_name_base(c) || c == '_'
}

/// PN_CHARS [166s] of Turtle.
#[inline(always)]
#[tactic(auto, using(crate::proofs::Walks::small_byte))]
pub fn is_name_char(c: char) -> bool
    ensures { result ≡ is_name_char c }
{
    let code = c as u32;
    if code < 128 {
        Class::Name.has(code as u8)
    } else {
        is_wide_name_char(c)
    }
}

/// The same by its ranges, apart from the path of ASCII.
#[inline(never)]
#[tactic(auto, unfolding(turtle_grammar::specs::Characters::is_name_char, turtle_grammar::specs::Characters::is_digit))]
fn is_wide_name_char(c: char) -> bool
    ensures { result ≡ is_name_char c }
{
    is_name_start(c)
        || matches!(c, '-' | '0'..='9' | '\u{B7}' | '\u{300}'..='\u{36F}' | '\u{203F}'..='\u{2040}')
}

#[tactic(auto, unfolding(turtle_grammar::specs::Characters::is_local_escape))]
pub fn is_local_escape(c: char) -> bool
    ensures { result ≡ is_local_escape c }
{
    matches!(
        c,
        '_' | '~' | '.' | '-' | '!' | '$' | '&' | '\'' | '('..=','
            | ';'
            | '='
            | '/'
            | '?'
            | '#'
            | '@'
            | '%'
    )
}

/// Whether a local name may begin so, but for an escape.
#[inline(always)]
pub fn is_local_start(c: char) -> bool
    ensures { result ≡ is_local_start c }
{
    is_name_start(c) || c == ':' || is_digit(c)
}

/// Whether a local name may go on so, but for a dot and an escape.
pub fn is_local_char(c: char) -> bool
    ensures { result ≡ is_local_char c }
{
    is_name_char(c) || c == ':'
}
