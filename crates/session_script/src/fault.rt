ghost use Rattle.std.specs.Prelude.{◌≡◌};
ghost use Rattle.session_script.specs.declared.fault.ScriptFault.TheVariants as faults;

use std::alloc::{AllocError, AllocFailed};
use std::error::Error;
use std::fmt;

/// The rules of a script. Of several that a line breaks, the first in this order counts.
#[derive(Clone, Copy, Debug, PartialEq, Eq)]
pub enum ScriptRule {
    /// The file isn't UTF-8. The whole file is tested first, and the line is that of the first bad byte.
    Utf8,
    /// The first line that counts isn't `lv2fx 1`; line 1 where no line counts.
    Head,
    /// The first word or the action is unknown.
    Word,
    /// A line stands above this one that belongs after it.
    Order,
    /// A setting stands again.
    Twice,
    /// The number of words is wrong.
    Count,
    /// A number isn't decimal digits, for `int` after an optional sign, or a decimal isn't one.
    Number,
    /// A number is outside its limits.
    Range,
    /// A name or symbol isn't `_` or a letter and then these and digits, or has more than 32 bytes.
    Name,
    /// An instance's name stands again.
    Same,
    /// There is no instance of a name.
    Unknown,
    /// A path has more than 512 bytes, begins with `/`, or has an empty, `.` or `..` segment.
    Path,
    /// An IRI has no scheme, or a character that may not stand in one.
    Iri,
    /// The block of an action is below that of the action before, or above `blocks`.
    Block,
    /// A word is neither `delayed`, `fixed` nor `int` where one of these stands.
    Form,
}

/// What a session may have only so many of, in the order in which the limits are judged.
#[derive(Clone, Copy, Debug, PartialEq, Eq)]
pub enum Limit {
    /// 64.
    Bundles,
    /// 32.
    Instances,
    /// 256.
    Cables,
    /// 8.
    Outputs,
    /// 1024.
    Actions,
    /// 128.
    Saves,
    /// Samples of all channels of the whole run: 2^25.
    Samples,
}

/// Why bytes are no session.
#[derive(Clone, Copy, Debug)]
pub enum ScriptFault {
    /// The first line that breaks a rule, counted from 1, and the first rule that it breaks.
    Bad(u32, ScriptRule),
    /// The first limit that is passed, and the number that passes it.
    Limit(Limit, u64),
    NoMemory,
}

impl fmt::Display for ScriptFault {
    fn fmt<W: fmt::Write>(&self, f: &mut fmt::Formatter<W>) -> fmt::Result {
        match self {
            ScriptFault::Bad(line, rule) => write!(f, "line {line} breaks the rule {rule:?}"),
            ScriptFault::Limit(limit, number) => write!(f, "{number} is too many for {limit:?}"),
            ScriptFault::NoMemory => write!(f, "no memory"),
        }
    }
}

impl Error for ScriptFault {}

impl From<AllocError> for ScriptFault {
    ghost from_gives = { λ _ fault. fault ≡ faults.NoMemory };

    fn from(_: AllocError) -> Self {
        ScriptFault::NoMemory
    }
}

impl From<lv_base::NoMemory> for ScriptFault {
    ghost from_gives = { λ _ fault. fault ≡ faults.NoMemory };

    fn from(_: lv_base::NoMemory) -> Self {
        ScriptFault::NoMemory
    }
}
