ghost use Rattle.std.specs.Prelude.{◌≡◌, ◌+◌, ◌<◌, ◌^◌, None, IfSome, not, length, position};
ghost use Rattle.std.specs.Str.{bytes_eq};
ghost use Rattle.session_script.specs.Later as spec;
ghost use Rattle.session_script.specs.Line.{lines_of};
ghost use Rattle.session_script.specs.Places as places;
ghost use Rattle.session_script.specs.Playable.{IsPlayable};
ghost use Rattle.session_script.specs.Script.{IsSessionOf};
ghost use Rattle.session_script.specs.Said.{said};
ghost use Rattle.session_script.specs.Stock as stock;
ghost use Rattle.session_script.specs.Words.{value_of};

use crate::keyword::Setting;
use crate::session::{Inst, Session};
use crate::sorts::number;
use crate::statement::{Statement, statement_of};

const CONST_URI: &str = "urn:lv2fx:const";

const AMP_URI: &str = "urn:lv2fx:amp";

/// The first line of a session's script that can't be played yet, counted from 1.
///
/// Played are the settings `block` and `blocks`, the latter up to 1024; constants and amplifiers, without a worker; the
/// values of their control inputs; cables from an `out` to the `in` of an amplifier with a greater number, not delayed;
/// and channels of an `out`.
pub fn first_later(bytes: &[u8], session: &Session) -> Option<u32>
    requires short { length bytes.now < 2 ^ 32 }
    requires session { IsSessionOf bytes.now session.now }
    ensures line { result ≡ spec.first_later bytes.now session.now }
    ensures playable { result ≡ None → IsPlayable session.now }
{
    let text = match simdutf8::compat::from_utf8(bytes) {
        Ok(text) => text,
        Err(_) => unreachable!(),
    };
    let before = lines_before(text, session.insts.as_slice())?;
    Some(before as u32 + 1)
}

/// How many lines stand before the first that can't be played.
fn lines_before(text: &str, insts: &[Inst]) -> Option<usize>
    ensures value { result ≡ position (λ line. not (spec.is_playable insts.now line)) (lines_of text.now) }
    ensures few { IfSome result (λ before. before < length text.now) }
{
    text.lines()
        .map(statement_of)
        .position(|statement| !is_playable(insts, statement))
}

/// Whether a line of a session with these instances can be played.
fn is_playable(insts: &[Inst], statement: Statement<'_>) -> bool
    ensures { result ≡ spec.is_playable insts.now (said statement.entry) }
{
    match statement {
        Statement::Skipped | Statement::Header => true,
        Statement::Setting(kind, word) => plays_setting(kind, word),
        Statement::Inst(_, uri, worker) => worker.is_none() && is_stock_uri(uri),
        Statement::Set(name, symbol, _) => symbol == control_of(uri_at(insts, place(insts, name))),
        Statement::Cable(source, output, target, input, delayed) => {
            delayed.is_none() && leads_on(insts, source, output, target, input)
        }
        Statement::Out(_, symbol) => symbol == "out",
        _ => false,
    }
}

/// Whether the program keeps to a setting: to the frames of a block, and to up to 1024 blocks.
fn plays_setting(kind: Setting, word: &str) -> bool
    ensures { result ≡ spec.plays_setting kind word.now }
{
    match kind {
        Setting::Block => true,
        Setting::Blocks => number(word) <= 1024,
        _ => false,
    }
}

fn is_stock_uri(uri: &str) -> bool
    ensures { result ≡ stock.is_stock_uri uri.now }
{
    uri == CONST_URI || uri == AMP_URI
}

/// Whether an `out` leads to the `in` of an amplifier that stands after it.
fn leads_on(insts: &[Inst], source: &str, output: &str, target: &str, input: &str) -> bool
    ensures { result ≡ spec.leads_on insts.now source.now output.now target.now input.now }
{
    output == "out" && input == "in" && stands_behind(insts, source, target)
}

/// Whether the target is an amplifier that stands after the source.
fn stands_behind(insts: &[Inst], source: &str, target: &str) -> bool
    ensures { result ≡ spec.stands_behind insts.now source.now target.now }
{
    let target = place(insts, target);
    place(insts, source) < target && uri_at(insts, target) == AMP_URI
}

/// The number of the instance with this name, or of all instances where there is none.
fn place(insts: &[Inst], name: &str) -> usize
    ensures { result ≡ places.place insts.now name.now }
{
    position(insts, name).unwrap_or(insts.len())
}

fn position(insts: &[Inst], name: &str) -> Option<usize>
    ensures { result ≡ position (λ one. bytes_eq one.name name.now) insts.now }
{
    insts.iter().position(|inst| inst.name.as_str() == name)
}

/// The URI of an instance.
fn uri_at(insts: &[Inst], number: usize) -> &str
    ensures { result.now ≡ spec.uri_at insts.now number }
{
    match insts.get(number) {
        Some(inst) => inst.uri.as_str(),
        None => "",
    }
}

/// The control input of a constant or an amplifier.
fn control_of(uri: &str) -> &'static str
    ensures { result.now ≡ stock.control_of uri.now }
{
    if uri == CONST_URI { "value" } else { "gain" }
}
