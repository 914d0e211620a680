ghost use Rattle.std.specs.Prelude.{◌≡◌};
ghost use Rattle.session_script.specs.Words.{words};
ghost use Rattle.session_script.specs.Line as spec;
ghost use Rattle.session_script.specs.Line.Line.{miscounted};
ghost use Rattle.session_script.specs.Said.{said, said_or, IsOnlyWord, IsRest};

use crate::keyword::{Keyword, Setting};
use crate::words::cut_word;

/// What a line `at` does to an instance. Its words are lent.
#[derive(Clone, Copy)]
pub(crate) enum Deeds<'a> {
    SetValue(&'a str, &'a str),
    PatchSet(&'a str, &'a str, &'a str),
    PatchGet(Option<&'a str>),
    Save,
    Restore(&'a str, &'a str),
}

/// What one line says by itself. Its words are lent.
#[derive(Clone, Copy)]
pub(crate) enum Statement<'a> {
    /// No word, or a comment.
    Skipped,
    Header,
    Setting(Setting, &'a str),
    Bundle(&'a str),
    Inst(&'a str, &'a str, Option<&'a str>),
    Set(&'a str, &'a str, &'a str),
    Cable(&'a str, &'a str, &'a str, &'a str, Option<&'a str>),
    Out(&'a str, &'a str),
    At(&'a str, &'a str, Deeds<'a>),
    /// A known first word, and a wrong number of words.
    Miscounted(Keyword),
    Unknown,
}

/// What a line says.
pub(crate) fn statement_of(line: &str) -> Statement<'_>
    ensures { said result ≡ spec.line_of (words line.now) }
{
    let Some((keyword, rest)) = cut_word(line) else {
        return Statement::Skipped;
    };
    if keyword.as_bytes().starts_with("#".as_bytes()) {
        return Statement::Skipped;
    }
    statement_with(keyword, rest)
}

fn statement_with<'a>(keyword: &str, rest: &'a str) -> Statement<'a>
    ensures { said result ≡ spec.line_by keyword.now (words rest.now) }
{
    match setting_named(keyword) {
        Some(kind) => setting(kind, rest),
        None => other_with(keyword, rest),
    }
}

/// The setting that a word names.
fn setting_named(word: &str) -> Option<Setting>
    ensures { result ≡ spec.setting_named word.now }
{
    match word {
        "rate" => Some(Setting::Rate),
        "block" => Some(Setting::Block),
        "blocks" => Some(Setting::Blocks),
        "workers" => Some(Setting::Workers),
        "cells" => Some(Setting::Cells),
        "record" => Some(Setting::Record),
        _ => None,
    }
}

/// What a line says whose first word names no setting.
fn other_with<'a>(keyword: &str, rest: &'a str) -> Statement<'a>
    ensures { said result ≡ spec.other_by keyword.now (words rest.now) }
{
    match keyword {
        "lv2fx" => header(rest),
        "bundle" => bundle(rest),
        "inst" => inst(rest).unwrap_or(Statement::Miscounted(Keyword::Inst)),
        "set" => set(rest).unwrap_or(Statement::Miscounted(Keyword::Set)),
        "cable" => cable(rest).unwrap_or(Statement::Miscounted(Keyword::Cable)),
        "out" => out(rest).unwrap_or(Statement::Miscounted(Keyword::Out)),
        "at" => at(rest).unwrap_or(Statement::Miscounted(Keyword::At)),
        _ => Statement::Unknown,
    }
}

/// `1`
fn header(rest: &str) -> Statement<'_>
    ensures { said result ≡ spec.header_of (words rest.now) }
{
    match only_word(rest) {
        Some(version) if version == "1" => Statement::Header,
        _ => Statement::Unknown,
    }
}

/// `N`
fn setting(kind: Setting, rest: &str) -> Statement<'_>
    ensures { said result ≡ spec.setting_of kind (words rest.now) }
{
    match only_word(rest) {
        Some(number) => Statement::Setting(kind, number),
        None => Statement::Miscounted(Keyword::Number(kind)),
    }
}

/// `PATH`
fn bundle(rest: &str) -> Statement<'_>
    ensures { said result ≡ spec.bundle_of (words rest.now) }
{
    match only_word(rest) {
        Some(path) => Statement::Bundle(path),
        None => Statement::Miscounted(Keyword::Bundle),
    }
}

/// `NAME URI [WORKER]`
fn inst(rest: &str) -> Option<Statement<'_>>
    ensures { said_or (miscounted Keyword.Inst) result ≡ spec.inst_of (words rest.now) }
{
    let (name, rest) = cut_word(rest)?;
    let (uri, rest) = cut_word(rest)?;
    Some(Statement::Inst(name, uri, last_word(rest)?))
}

/// `NAME SYMBOL DECIMAL`
fn set(rest: &str) -> Option<Statement<'_>>
    ensures { said_or (miscounted Keyword.Set) result ≡ spec.set_of (words rest.now) }
{
    let (name, rest) = cut_word(rest)?;
    let (symbol, rest) = cut_word(rest)?;
    Some(Statement::Set(name, symbol, only_word(rest)?))
}

/// `NAME SYMBOL NAME SYMBOL [delayed]`
fn cable(rest: &str) -> Option<Statement<'_>>
    ensures { said_or (miscounted Keyword.Cable) result ≡ spec.cable_of (words rest.now) }
{
    let (source, rest) = cut_word(rest)?;
    let (output, rest) = cut_word(rest)?;
    let (target, rest) = cut_word(rest)?;
    let (input, rest) = cut_word(rest)?;
    Some(Statement::Cable(source, output, target, input, last_word(rest)?))
}

/// `NAME SYMBOL`
fn out(rest: &str) -> Option<Statement<'_>>
    ensures { said_or (miscounted Keyword.Out) result ≡ spec.out_of (words rest.now) }
{
    let (name, rest) = cut_word(rest)?;
    Some(Statement::Out(name, only_word(rest)?))
}

/// `BLOCK ACTION ..`
fn at(rest: &str) -> Option<Statement<'_>>
    ensures { said_or (miscounted Keyword.At) result ≡ spec.at_of (words rest.now) }
{
    let (block, rest) = cut_word(rest)?;
    let (action, rest) = cut_word(rest)?;
    act(block, action, rest)
}

fn act<'a>(block: &'a str, action: &str, rest: &'a str) -> Option<Statement<'a>>
    ensures { said_or (miscounted Keyword.At) result ≡ spec.act_by block.now action.now (words rest.now) }
{
    match action {
        "set" => at_set(block, rest),
        "patch-set" => at_patch_set(block, rest),
        "patch-get" => at_patch_get(block, rest),
        "save" => at_save(block, rest),
        "restore" => at_restore(block, rest),
        _ => Some(Statement::Unknown),
    }
}

/// `NAME SYMBOL DECIMAL`
fn at_set<'a>(block: &'a str, rest: &'a str) -> Option<Statement<'a>>
    ensures { said_or (miscounted Keyword.At) result ≡ spec.at_set_of block.now (words rest.now) }
{
    let (name, rest) = cut_word(rest)?;
    let (symbol, rest) = cut_word(rest)?;
    let act = Deeds::SetValue(symbol, only_word(rest)?);
    Some(Statement::At(block, name, act))
}

/// `NAME IRI fixed DECIMAL`, or `int NUMBER`
fn at_patch_set<'a>(block: &'a str, rest: &'a str) -> Option<Statement<'a>>
    ensures { said_or (miscounted Keyword.At) result ≡ spec.at_patch_set_of block.now (words rest.now) }
{
    let (name, rest) = cut_word(rest)?;
    let (property, rest) = cut_word(rest)?;
    let (form, rest) = cut_word(rest)?;
    let act = Deeds::PatchSet(property, form, only_word(rest)?);
    Some(Statement::At(block, name, act))
}

/// `NAME [IRI]`
fn at_patch_get<'a>(block: &'a str, rest: &'a str) -> Option<Statement<'a>>
    ensures { said_or (miscounted Keyword.At) result ≡ spec.at_patch_get_of block.now (words rest.now) }
{
    let (name, rest) = cut_word(rest)?;
    Some(Statement::At(block, name, Deeds::PatchGet(last_word(rest)?)))
}

/// `NAME`
fn at_save<'a>(block: &'a str, rest: &'a str) -> Option<Statement<'a>>
    ensures { said_or (miscounted Keyword.At) result ≡ spec.at_save_of block.now (words rest.now) }
{
    Some(Statement::At(block, only_word(rest)?, Deeds::Save))
}

/// `NAME PATH K`
fn at_restore<'a>(block: &'a str, rest: &'a str) -> Option<Statement<'a>>
    ensures { said_or (miscounted Keyword.At) result ≡ spec.at_restore_of block.now (words rest.now) }
{
    let (name, rest) = cut_word(rest)?;
    let (path, rest) = cut_word(rest)?;
    let act = Deeds::Restore(path, only_word(rest)?);
    Some(Statement::At(block, name, act))
}

/// The one word of a line.
fn only_word(rest: &str) -> Option<&str>
    ensures { IsOnlyWord (words rest.now) result }
{
    let (word, rest) = cut_word(rest)?;
    match cut_word(rest) {
        None => Some(word),
        Some(_) => None,
    }
}

/// The one word that a line may have.
fn last_word(rest: &str) -> Option<Option<&str>>
    ensures { IsRest (words rest.now) result }
{
    match cut_word(rest) {
        None => Some(None),
        Some((word, rest)) => match cut_word(rest) {
            None => Some(Some(word)),
            Some(_) => None,
        },
    }
}
