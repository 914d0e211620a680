ghost use Rattle.std.specs.Prelude.{◌≡◌, ◌≤◌, ℕ, [], ◌++◌, Contains, IfNone, IfOk, IfSome, OnOk, encode_utf8_all, take, length, ◌-◌};
ghost use Rattle.std.specs.Str.{chars};
ghost use Rattle.std.specs.String.{string_bytes};
ghost use Rattle.turtle_grammar.specs.Value.{content, inside, unescaped, character, letter_value};
ghost use Rattle.turtle_value.specs.declared.unescape.Escape.TheVariants as Escape;
ghost use Rattle.turtle_value.specs.Escaping.{IsBegun, IsNumber, Steps, EndsWith, left_of, with, with_digit, digit_of};

use lv_base::{NoMemory, Text};
use std::alloc::Global;

// How much of an escape has been read.
#[derive(Clone, Copy, Debug, PartialEq, Eq)]
pub(crate) enum Escape {
    None,
    // Its backslash.
    Backslash,
    // Its number, but for so many digits.
    Number { left: u32, number: u32 },
}

// What a token says between so many quotes or angle brackets at each end: each escape by its character (ECHAR [159s], UCHAR [26]).
pub(crate) fn content_text(alloc: Global, token: &str, quotes: usize) -> Result<Text, NoMemory>
    ensures { IfOk result (λ text. text ≡ content quotes token.now) }
{
    match plain_content(token, quotes) {
        Some(plain) => Text::from_str(alloc, plain),
        None => {
            let inner = within(token, quotes);
            let mut text = String::with_capacity(alloc, inner.len())?;
            push_unescaped(&mut text, inner)?;
            Text::from_str(alloc, &text)
        }
    }
}

#[tactic(auto, using(crate::proofs::Plain::plain_of))]
// The same, borrowed, where no escape stands there; `None` where a backslash stands there.
pub(crate) fn plain_content(token: &str, quotes: usize) -> Option<&str>
    ensures plain { IfSome result (λ text. text.now ≡ content quotes token.now) }
    ensures escaped { IfNone result (Contains (inside quotes (chars token.now)) 92) }
{
    let inner = within(token, quotes);
    match inner.find('\\') {
        None => Some(inner),
        Some(_) => None,
    }
}

// A text without its first and last characters, so many at each end.
fn within(text: &str, count: usize) -> &str
    ensures { chars result.now ≡ inside count (chars text.now) }
{
    let mut rest = text.chars();
    for _ in 0..count {
        rest.next();
    }
    let mut inner = rest.as_str();
    for _ in 0..count {
        inner = without_last(inner);
    }
    inner
}

fn without_last(text: &str) -> &str
    ensures { chars result.now ≡ take (length (chars text.now) - 1) (chars text.now) }
{
    match text.chars().next_back() {
        None => text,
        Some(last) => before(text, last),
    }
}

fn before<'a>(text: &'a str, last: char) -> &'a str
    requires { EndsWith last text.now }
    ensures { chars result.now ≡ take (length (chars text.now) - 1) (chars text.now) }
{
    &text[..text.len() - last.len_utf8()]
}

fn push_unescaped(into: &mut String, text: &str) -> Result<(), NoMemory>
    ensures { OnOk result (string_bytes into.new ≡ string_bytes into.old ++ encode_utf8_all (unescaped (chars text.now))) }
{
    let mut escape = Escape::None;
    for c in text.chars() {
        let (after, made) = step(escape, c);
        push(into, made)?;
        escape = after;
    }
    push(into, rest_of(escape))
}

fn push(into: &mut String, made: Option<char>) -> Result<(), NoMemory>
    ensures { OnOk result (string_bytes into.new ≡ string_bytes into.old ++ encode_utf8_all (with made [])) }
{
    if let Some(c) = made {
        into.push(c)?;
    }
    Ok(())
}

#[tactic(auto, using(crate::proofs::Steps::at_backslash))]
// One character further: what the escape is then, and a character that is whole.
fn step(escape: Escape, c: char) -> (Escape, Option<char>)
    requires { IsBegun escape }
    ensures { Steps escape c result.1 result.0 }
{
    match escape {
        Escape::None if c == '\\' => (Escape::Backslash, None),
        Escape::None => (Escape::None, Some(c)),
        Escape::Backslash => match c {
            'u' => (Escape::Number { left: 4, number: 0 }, None),
            'U' => (Escape::Number { left: 8, number: 0 }, None),
            letter => (Escape::None, Some(letter_char(letter))),
        },
        Escape::Number { left, number } => digit_step(left, number, c),
    }
}

fn digit_step(left: u32, number: u32, c: char) -> (Escape, Option<char>)
    requires { IsNumber left number }
    ensures { Steps (Escape.Number left number) c result.1 result.0 }
{
    let number = number * 16 + digit(c);
    if left == 1 {
        (Escape::None, Some(char_of(number)))
    } else {
        (
            Escape::Number {
                left: left - 1,
                number,
            },
            None,
        )
    }
}

fn digit(c: char) -> u32
    ensures { result ≡ digit_of c }
{
    c.to_digit(16).unwrap_or(0)
}

// What an escape stands for that the text's end cuts off; no token has one.
fn rest_of(escape: Escape) -> Option<char>
    ensures { with result [] ≡ left_of escape [] }
{
    match escape {
        Escape::None => None,
        Escape::Backslash => Some('\\'),
        Escape::Number { number, .. } => Some(char_of(number)),
    }
}

fn char_of(number: u32) -> char
    ensures { result ≡ character number }
{
    char::from_u32(number).unwrap_or(char::REPLACEMENT_CHARACTER)
}

fn letter_char(letter: char) -> char
    ensures { result ≡ letter_value letter }
{
    match letter {
        't' => '\t',
        'b' => '\u{8}',
        'n' => '\n',
        'r' => '\r',
        'f' => '\u{c}',
        itself => itself,
    }
}
