ghost use Rattle.std.specs.Prelude.{◌≡◌, [], ◌∷◌};
ghost use Rattle.turtle_lex.specs.Kinds.{wanting, letter_class, letters, words};
ghost use Rattle.turtle_lex.specs.Picks.{PicksAt};
ghost use Rattle.turtle_lex.specs.Places.{IsPlace, Reads};

use crate::characters::char_at;
use turtle_grammar::TokenKind;

/// Whether a character is the letter, maybe in any case, where the letter is in lower case.
fn is_letter(c: char, letter: u8, in_any_case: bool) -> bool
    ensures { result ≡ letter_class in_any_case letter c }
{
    if in_any_case {
        c.to_ascii_lowercase() == char::from(letter)
    } else {
        c == char::from(letter)
    }
}

/// A word of the kind, if these letters stand at a place.
fn letters_at(
    text: &str,
    from: usize,
    word: &[u8],
    in_any_case: bool,
    kind: TokenKind,
) -> Option<(TokenKind, usize)>
    requires { IsPlace text.now from }
    ensures { PicksAt (wanting kind (letters in_any_case word.now) ∷ []) text.now from result }
{
    let mut at = from;
    for letter in word {
        match char_at(text, at) {
            None => return None,
            Some((c, next)) => {
                if !is_letter(c, *letter, in_any_case) {
                    return None;
                }
                at = next;
            }
        }
    }
    Some((kind, at))
}

/// The word that begins with `c` at `at`, after which `next` is.
#[inline(never)]
pub fn word_at(text: &str, at: usize, c: char, next: usize) -> Option<(TokenKind, usize)>
    requires place { IsPlace text.now at }
    requires reads { Reads text.now at c next }
    ensures { PicksAt words text.now at result }
{
    if c == 'a' {
        Some((TokenKind::A, next))
    } else if c == 't' {
        letters_at(text, next, b"rue", false, TokenKind::True)
    } else if c == 'f' {
        letters_at(text, next, b"alse", false, TokenKind::False)
    } else if is_letter(c, b'p', true) {
        letters_at(text, next, b"refix", true, TokenKind::Prefix)
    } else if is_letter(c, b'b', true) {
        letters_at(text, next, b"ase", true, TokenKind::Base)
    } else {
        None
    }
}
