ghost use Rattle.std.specs.Prelude.{◌≡◌};

use crate::characters::is_escape;

/// What encloses a token's characters.
#[derive(Clone, Copy)]
pub enum Enclosure {
    /// `<` and `>`
    Angle,
    /// `"`
    Double,
    /// `'`
    Single,
    /// `"""`
    LongDouble,
    /// `'''`
    LongSingle,
}

impl Enclosure {
    ghost use Rattle.turtle_lex.specs.Enclosure.{closing, letter_escape, plain};

    /// The character that closes, three times for a long string.
    pub fn closing(self) -> char
        ensures { result ≡ closing self }
    {
        match self {
            Enclosure::Angle => '>',
            Enclosure::Double | Enclosure::LongDouble => '"',
            Enclosure::Single | Enclosure::LongSingle => '\'',
        }
    }

    /// Whether the letter stands for a character after a backslash.
    pub fn has_letter_escape(self, c: char) -> bool
        ensures { result ≡ letter_escape self c }
    {
        match self {
            Enclosure::Angle => false,
            _ => is_escape(c),
        }
    }

    /// Whether the character stands for itself inside.
    #[tactic(auto, unfolding(turtle_grammar::specs::Characters::is_excluded))]
    pub fn is_plain(self, c: char) -> bool
        ensures { result ≡ plain self c }
    {
        match self {
            Enclosure::Angle => !matches!(
                c,
                '\0'..=' ' | '<' | '>' | '"' | '{' | '}' | '|' | '^' | '`' | '\\'
            ),
            Enclosure::Double => !matches!(c, '"' | '\\' | '\n' | '\r'),
            Enclosure::Single => !matches!(c, '\'' | '\\' | '\n' | '\r'),
            Enclosure::LongDouble => !matches!(c, '"' | '\\'),
            Enclosure::LongSingle => !matches!(c, '\'' | '\\'),
        }
    }
}
