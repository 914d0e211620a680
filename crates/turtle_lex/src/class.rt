ghost use Rattle.std.specs.Prelude.{◌≡◌};
ghost use Rattle.turtle_lex.specs.Classes.{AreGroupsOf, is_among};

use crate::enclosure::Enclosure;
use crate::groups::{
    ALL, BACKSLASH, COLON, DASH, DIGIT, DOUBLE, GROUPS, LETTER, LINE_END, OTHER, SINGLE, SPACE,
    WIDE,
};
use crate::run::Run;

/// A class of characters, of which a token or a gap has whole runs.
#[derive(Clone, Copy)]
pub enum Class {
    /// White space.
    White,
    /// What may stand in a comment.
    Comment,
    /// What may stand in a name after its first character, but for a dot.
    Name,
    /// The same and a colon.
    LocalName,
    /// What stands for itself in an IRI or a string.
    Plain(Enclosure),
    /// Digits or letters.
    Alphanumeric(Run),
}

impl Class {
    ghost use Rattle.std.specs.Prelude.{◌≡◌};
    ghost use Rattle.turtle_lex.specs.Classes.{AreGroupsOf, class_byte, IsByteRun};
    ghost use Rattle.turtle_lex.specs.Places.{IsPlace};

    /// The groups of bytes of which the class is made.
    fn groups(self) -> u16
        ensures { AreGroupsOf self result }
    {
        match self {
            Class::White => SPACE | LINE_END,
            Class::Comment => ALL ^ LINE_END,
            Class::Name => LETTER | DIGIT | DASH,
            Class::LocalName => LETTER | DIGIT | DASH | COLON,
            Class::Plain(enclosure) => plain_groups(enclosure),
            Class::Alphanumeric(run) => run_groups(run),
        }
    }

    /// Whether a run of the class goes on by the byte.
    #[inline(always)]
    pub fn has(self, byte: u8) -> bool
        ensures { result ≡ class_byte self byte }
    {
        is_among(byte, self.groups())
    }

    /// The end of the run of bytes of the class that begins at a place, maybe an empty one. A byte above 127 is of the class
    /// where all characters above 127 are, else the run ends before it.
    #[inline(always)]
    pub fn run_end(self, text: &str, from: usize) -> usize
        requires { IsPlace text.now from }
        ensures place { IsPlace text.now result }
        ensures run { IsByteRun (class_byte self) text.now from result }
    {
        let bytes = text.as_bytes();
        let groups = self.groups();
        let mut at = from;
        while at < bytes.len() && is_among(bytes[at], groups) {
            at += 1;
        }
        at
    }
}

/// Whether a byte is of one of these groups.
#[inline(always)]
fn is_among(byte: u8, groups: u16) -> bool
    ensures { result ≡ is_among groups byte }
{
    GROUPS[usize::from(byte)] & groups != 0
}

/// The groups of what stands for itself inside.
fn plain_groups(enclosure: Enclosure) -> u16
    ensures { AreGroupsOf (Class.Plain enclosure) result }
{
    match enclosure {
        Enclosure::Angle => LETTER | DIGIT | DASH | COLON | SINGLE | OTHER | WIDE,
        Enclosure::Double => ALL ^ (DOUBLE | BACKSLASH | LINE_END),
        Enclosure::Single => ALL ^ (SINGLE | BACKSLASH | LINE_END),
        Enclosure::LongDouble => ALL ^ (DOUBLE | BACKSLASH),
        Enclosure::LongSingle => ALL ^ (SINGLE | BACKSLASH),
    }
}

fn run_groups(run: Run) -> u16
    ensures { AreGroupsOf (Class.Alphanumeric run) result }
{
    match run {
        Run::Digits => DIGIT,
        Run::Letters => LETTER,
        Run::LettersOrDigits => LETTER | DIGIT,
    }
}
