ghost use Rattle.std.specs.Prelude.{◌≡◌, ◌≤◌, ◌<◌, ◌++◌, [], length, flat_map, IfOk, OnOk, IfErr, IfSome, Some, List, MatchResult};
ghost use Rattle.step_law.specs.declared.entry.Entry.{Entry};
ghost use Rattle.step_law.specs.Form.{IsForm};
ghost use Rattle.step_record.specs.Reading.{IsFormed, ReadsLine, most_lines, Says, SaysNext, SaysOfLines, SaysOfText, line_at, line_for, next_at, lines_after};
ghost use Rattle.step_record.specs.Reading as spec;
ghost use Rattle.step_record.specs.RecordText.{line_of, record_text};

use crate::text::push_line;
use crate::words::entry_in;
use crate::{Entry, Kind, Record, RecordFault};
use lv_base::{Bytes, NoMemory};
use std::alloc::Global;

/// How many lines may follow the first, a last line `end` not counted.
const MOST_LINES: u64 = 4_718_592;

/// Reads a record's text, format 1.
pub fn read(alloc: Global, bytes: &[u8]) -> Result<Record, RecordFault>
    ensures ok { IfOk result (λ steps. IsFormed steps × (bytes.now ≡ record_text steps) × (lines_after bytes.now ≤ most_lines)) }
    ensures err { IfErr result (λ fault. Says fault bytes.now) }
    ensures back { (steps : List Entry) → IsFormed steps → bytes.now ≡ record_text steps → lines_after bytes.now ≤ most_lines → MatchResult result (λ found. found ≡ steps) (λ fault. fault ≡ RecordFault.NoMemory) }
{
    read_few(alloc, bytes)
}

fn read_few(alloc: Global, bytes: &[u8]) -> Result<Record, RecordFault>
    ensures ok { IfOk result (λ steps. IsFormed steps × (bytes.now ≡ record_text steps) × (lines_after bytes.now ≤ most_lines)) }
    ensures err { IfErr result (λ fault. Says fault bytes.now) }
{
    let count = count_lines(bytes);
    if MOST_LINES < count {
        return Err(RecordFault::TooMany(count));
    }
    // One more, for the line `end`, which isn't counted.
    read_text(alloc, count as usize + 1, bytes)
}

// Reads a text, with room at once for so many entries.
fn read_text(alloc: Global, room: usize, bytes: &[u8]) -> Result<Record, RecordFault>
    ensures ok { IfOk result (λ steps. IsFormed steps × (bytes.now ≡ record_text steps)) }
    ensures err { IfErr result (λ fault. SaysOfText fault bytes.now) }
{
    match bytes.strip_prefix("lv2fx-record 1\n".as_bytes()) {
        Some(lines) => read_lines(alloc, room, lines),
        None => Err(RecordFault::Syntax(1)),
    }
}

// How many lines follow the first, a last line `end` not counted.
fn count_lines(bytes: &[u8]) -> u64
    ensures { result ≡ lines_after bytes.now }
{
    let feeds = bytes.iter().filter(|byte| **byte == b'\n').count() as u64;
    let open = if bytes.ends_with("\n".as_bytes()) {
        0
    } else {
        1
    };
    let apart = if bytes.ends_with("\nend\n".as_bytes()) {
        2
    } else {
        1
    };
    (feeds + open).saturating_sub(apart)
}

fn read_lines(alloc: Global, room: usize, lines: &[u8]) -> Result<Record, RecordFault>
    ensures ok { IfOk result (λ steps. IsFormed steps × (lines.now ≡ flat_map line_of steps)) }
    ensures err { IfErr result (λ fault. SaysOfLines fault lines.now) }
{
    let mut scratch = Bytes::new(alloc);
    let mut steps = Record::with_room(alloc, room)?;
    push_lines(&mut steps, &mut scratch, lines)?;
    Ok(steps)
}

fn push_lines(steps: &mut Record, scratch: &mut Bytes, lines: &[u8]) -> Result<(), RecordFault>
    requires { steps.old ≡ [] }
    ensures ok { OnOk result (IsFormed steps.new × (lines.now ≡ flat_map line_of steps.new)) }
    ensures err { IfErr result (λ fault. SaysOfLines fault lines.now) }
{
    let mut rest = lines;
    while !rest.is_empty() {
        let count = push_next(steps, scratch, rest)?;
        rest = &rest[count..];
    }
    Ok(())
}

// Puts the entry of the first line, and gives the line's length.
fn push_next(steps: &mut Record, scratch: &mut Bytes, text: &[u8]) -> Result<usize, RecordFault>
    ensures ok { IfOk result (λ count. ReadsLine steps.old text.now count steps.new) }
    ensures err { IfErr result (λ fault. SaysNext fault (length steps.old) text.now) }
{
    match next_in(scratch, text)? {
        Some(line) => {
            steps.push(line.0)?;
            Ok(line.1)
        }
        None => Err(RecordFault::Syntax(steps.entries().len() as u64 + 2)),
    }
}

// The same line, if it may stand there: the end of the record stands at the end.
fn next_in(scratch: &mut Bytes, text: &[u8]) -> Result<Option<(Entry, usize)>, NoMemory>
    ensures value { IfOk result (λ found. found ≡ next_at text.now) }
    ensures form { IfOk result (λ found. IfSome found (λ line. IsForm line.0)) }
{
    match line_in(scratch, text)? {
        Some(line) if stands(line.0.kind, text.len().saturating_sub(line.1)) => Ok(Some(line)),
        _ => Ok(None),
    }
}

// Whether a line may stand with so many bytes after it.
fn stands(kind: Kind, after: usize) -> bool
    ensures { result ≡ spec.stands kind after }
{
    !matches!(kind, Kind::Last) || after == 0
}

// The entry of the line that a text begins with, and the line's length.
fn line_in(scratch: &mut Bytes, text: &[u8]) -> Result<Option<(Entry, usize)>, NoMemory>
    ensures value { IfOk result (λ found. found ≡ line_at text.now) }
    ensures form { IfOk result (λ found. IfSome found (λ line. IsForm line.0)) }
{
    match entry_in(text) {
        Some(entry) => line_of_entry(scratch, text, entry),
        None => Ok(None),
    }
}

fn line_of_entry(
    scratch: &mut Bytes,
    text: &[u8],
    entry: Entry,
) -> Result<Option<(Entry, usize)>, NoMemory>
    ensures value { IfOk result (λ found. found ≡ line_for text.now (Some entry)) }
    ensures same { IfOk result (λ found. IfSome found (λ line. line.0 ≡ entry)) }
{
    scratch.clear();
    push_line(scratch, &entry)?;
    if text.starts_with(scratch.as_slice()) {
        Ok(Some((entry, scratch.len())))
    } else {
        Ok(None)
    }
}
