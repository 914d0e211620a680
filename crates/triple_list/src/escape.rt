ghost use Rattle.std.specs.Prelude.{◌≡◌, ◌++◌, OnOk};
ghost use Rattle.std.specs.Option.{option_copied};
ghost use Rattle.triple_list.specs.Escapes.{escape_of, escaped};

use lv_base::{Bytes, NoMemory};

// How a byte of a literal is written where it doesn't stand for itself.
fn escape(byte: u8) -> Option<&'static str>
    ensures { option_copied result ≡ escape_of byte }
{
    match byte {
        b'\\' => Some("\\\\"),
        b'"' => Some("\\\""),
        b'\n' => Some("\\n"),
        b'\r' => Some("\\r"),
        b'\t' => Some("\\t"),
        _ => None,
    }
}

// Copies the runs between escaped bytes whole.
pub(crate) fn push_escaped(into: &mut Bytes, text: &[u8]) -> Result<(), NoMemory>
    ensures { OnOk result (into.new ≡ into.old ++ escaped text.now) }
{
    let mut copied = 0;
    for (at, byte) in text.iter().enumerate() {
        if let Some(escape) = escape(*byte) {
            into.push_all(&text[copied..at])?;
            into.push_all(escape.as_bytes())?;
            copied = at + 1;
        }
    }
    into.push_all(&text[copied..])
}
