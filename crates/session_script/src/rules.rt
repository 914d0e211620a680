ghost use Rattle.std.specs.Prelude.{◌≡◌, ◌<◌, ◌^◌, ◌==◌, Some, None, length, option_copied};
ghost use Rattle.std.specs.List.{list_all};
ghost use Rattle.session_script.specs.Rules as spec;
ghost use Rattle.session_script.specs.Sections as sections;
ghost use Rattle.session_script.specs.Sorts as sorts;
ghost use Rattle.session_script.specs.Judged as judged;
ghost use Rattle.session_script.specs.Places.{is_there};
ghost use Rattle.session_script.specs.Words as words;
ghost use Rattle.session_script.specs.Said.{said};

use crate::draft::Draft;
use crate::fault::ScriptRule;
use crate::keyword::{Keyword, Section};
use crate::sorts::{
    MOST, fits_fixed, fits_i32, is_decimal, is_integer, is_iri, is_name, is_number, is_path,
    number, without_slash,
};
use crate::statement::{Deeds, Statement};

/// The first rule of the table that a line breaks, seen from the lines before it.
pub(crate) fn broken_rule(before: &Draft, statement: Statement<'_>) -> Option<ScriptRule>
    requires { length before.now.insts < 2 ^ 32 }
    ensures { result ≡ spec.broken_rule before.now (said statement.entry) }
{
    if misses_head(before, statement) {
        return Some(ScriptRule::Head);
    }
    if is_unknown(before, statement) {
        return Some(ScriptRule::Word);
    }
    if is_late(before, statement) {
        return Some(ScriptRule::Order);
    }
    if is_again(before, statement) {
        return Some(ScriptRule::Twice);
    }
    if is_miscounted(statement) {
        return Some(ScriptRule::Count);
    }
    broken_word(before, statement)
}

/// The first rule that a line breaks of those on its words.
fn broken_word(before: &Draft, statement: Statement<'_>) -> Option<ScriptRule>
    requires { length before.now.insts < 2 ^ 32 }
    ensures { result ≡ judged.broken_word before.now (said statement.entry) }
{
    if !are_numbers(statement) {
        return Some(ScriptRule::Number);
    }
    if !are_in_range(before, statement) {
        return Some(ScriptRule::Range);
    }
    if !are_names(statement) {
        return Some(ScriptRule::Name);
    }
    if is_same(before, statement) {
        return Some(ScriptRule::Same);
    }
    if !are_there(before, statement) {
        return Some(ScriptRule::Unknown);
    }
    if !are_paths(statement) {
        return Some(ScriptRule::Path);
    }
    if !are_iris(statement) {
        return Some(ScriptRule::Iri);
    }
    if is_out_of_blocks(before, statement) {
        return Some(ScriptRule::Block);
    }
    if is_malformed(statement) {
        return Some(ScriptRule::Form);
    }
    None
}

fn misses_head(before: &Draft, statement: Statement<'_>) -> bool
    ensures { result ≡ spec.misses_head before.now (said statement.entry) }
{
    match statement {
        Statement::Skipped | Statement::Header => false,
        _ => before.section.order() == 0,
    }
}

fn is_unknown(before: &Draft, statement: Statement<'_>) -> bool
    ensures { result ≡ spec.is_unknown before.now (said statement.entry) }
{
    match statement {
        Statement::Unknown => true,
        Statement::Header => before.section.order() != 0,
        _ => false,
    }
}

fn is_late(before: &Draft, statement: Statement<'_>) -> bool
    ensures { result ≡ spec.is_late before.now (said statement.entry) }
{
    match section_of(statement) {
        Some(section) => section.order() < before.section.order(),
        None => false,
    }
}

/// The section that a line belongs to.
fn section_of(statement: Statement<'_>) -> Option<Section>
    ensures { result ≡ sections.section_of (said statement.entry) }
{
    match statement {
        Statement::Skipped | Statement::Unknown => None,
        Statement::Header | Statement::Setting(..) => Some(Section::Settings),
        Statement::Bundle(_) => Some(Section::Bundles),
        Statement::Inst(..) => Some(Section::Insts),
        Statement::Set(..) => Some(Section::Sets),
        Statement::Cable(..) => Some(Section::Cables),
        Statement::Out(..) => Some(Section::Outs),
        Statement::At(..) => Some(Section::Actions),
        Statement::Miscounted(keyword) => Some(keyword.section()),
    }
}

fn is_again(before: &Draft, statement: Statement<'_>) -> bool
    ensures { result ≡ spec.is_again before.now (said statement.entry) }
{
    match statement {
        Statement::Setting(kind, _) => before.numbers.get(kind).is_some(),
        Statement::Miscounted(Keyword::Number(kind)) => before.numbers.get(kind).is_some(),
        _ => false,
    }
}

fn is_miscounted(statement: Statement<'_>) -> bool
    ensures { result ≡ spec.is_miscounted (said statement.entry) }
{
    matches!(statement, Statement::Miscounted(_))
}

/// Whether the numbers, the decimals and the integers of a line are such.
fn are_numbers(statement: Statement<'_>) -> bool
    ensures { result ≡ spec.are_numbers (said statement.entry) }
{
    match statement {
        Statement::Setting(_, word) => is_number(word),
        Statement::Inst(_, _, Some(worker)) => is_number(worker),
        Statement::Set(_, _, decimal) => is_decimal(decimal),
        Statement::At(block, _, Deeds::SetValue(_, decimal)) => {
            is_number(block) && is_decimal(decimal)
        }
        Statement::At(block, _, Deeds::PatchSet(_, form, value)) => {
            is_number(block) && is_value(form, value)
        }
        Statement::At(block, _, Deeds::Restore(_, place)) => is_number(block) && is_number(place),
        Statement::At(block, _, _) => is_number(block),
        _ => true,
    }
}

/// Whether the value of a property is a number of its form.
fn is_value(form: &str, value: &str) -> bool
    ensures { result ≡ judged.is_value form.now value.now }
{
    if form == "fixed" {
        is_decimal(value)
    } else if form == "int" {
        is_integer(value)
    } else {
        true
    }
}

/// Whether the numbers of a line are within their limits.
fn are_in_range(before: &Draft, statement: Statement<'_>) -> bool
    ensures { result ≡ spec.are_in_range before.now (said statement.entry) }
{
    match statement {
        Statement::Setting(kind, word) => is_within(kind.least(), kind.most(), word),
        Statement::Inst(_, _, Some(worker)) => {
            is_within(1, u64::from(before.numbers.workers()), worker)
        }
        Statement::Set(_, _, decimal) => fits_fixed(decimal),
        Statement::At(_, _, Deeds::SetValue(_, decimal)) => fits_fixed(decimal),
        Statement::At(_, _, Deeds::PatchSet(_, form, value)) => fits_value(form, value),
        Statement::At(_, _, Deeds::Restore(_, place)) => number(place) <= 4_294_967_295,
        _ => true,
    }
}

fn is_within(least: u64, most: u64, word: &str) -> bool
    requires { most < MOST }
    ensures { result ≡ spec.is_within least most word.now }
{
    let number = number(word);
    least <= number && number <= most
}

/// Whether the value of a property is in the range of its form.
fn fits_value(form: &str, value: &str) -> bool
    ensures { result ≡ judged.fits_value form.now value.now }
{
    if form == "fixed" {
        fits_fixed(value)
    } else if form == "int" {
        fits_i32(value)
    } else {
        true
    }
}

fn are_names(statement: Statement<'_>) -> bool
    ensures { result ≡ list_all words.is_name (spec.names_in (said statement.entry)) }
{
    match statement {
        Statement::Inst(name, ..) => is_name(name),
        Statement::Set(name, symbol, _) => is_name(name) && is_name(symbol),
        Statement::Cable(source, output, target, input, _) => {
            is_name(source) && is_name(output) && is_name(target) && is_name(input)
        }
        Statement::Out(name, symbol) => is_name(name) && is_name(symbol),
        Statement::At(_, name, Deeds::SetValue(symbol, _)) => is_name(name) && is_name(symbol),
        Statement::At(_, name, _) => is_name(name),
        _ => true,
    }
}

fn is_same(before: &Draft, statement: Statement<'_>) -> bool
    requires { length before.now.insts < 2 ^ 32 }
    ensures { result ≡ spec.is_same before.now (said statement.entry) }
{
    match statement {
        Statement::Inst(name, ..) => before.insts.has(name),
        _ => false,
    }
}

/// Whether the instances that a line names are there.
fn are_there(before: &Draft, statement: Statement<'_>) -> bool
    requires { length before.now.insts < 2 ^ 32 }
    ensures { result ≡ list_all (is_there before.now.insts) (spec.mentioned_in (said statement.entry)) }
{
    let insts = &before.insts;
    match statement {
        Statement::Set(name, ..) => insts.has(name),
        Statement::Cable(source, _, target, ..) => insts.has(source) && insts.has(target),
        Statement::Out(name, _) => insts.has(name),
        Statement::At(_, name, _) => insts.has(name),
        _ => true,
    }
}

fn are_paths(statement: Statement<'_>) -> bool
    ensures { result ≡ list_all sorts.is_path (spec.paths_in (said statement.entry)) }
{
    match statement {
        Statement::Bundle(path) => is_path(without_slash(path)),
        Statement::At(_, _, Deeds::Restore(path, _)) => is_path(path),
        _ => true,
    }
}

fn are_iris(statement: Statement<'_>) -> bool
    ensures { result ≡ list_all sorts.is_iri (spec.iris_in (said statement.entry)) }
{
    match statement {
        Statement::Inst(_, uri, _) => is_iri(uri),
        Statement::At(_, _, Deeds::PatchSet(property, ..)) => is_iri(property),
        Statement::At(_, _, Deeds::PatchGet(Some(property))) => is_iri(property),
        _ => true,
    }
}

fn is_out_of_blocks(before: &Draft, statement: Statement<'_>) -> bool
    ensures { result ≡ spec.is_out_of_blocks before.now (said statement.entry) }
{
    match statement {
        Statement::At(block, ..) => {
            let block = number(block);
            block < u64::from(before.block_reached()) || u64::from(before.numbers.blocks()) < block
        }
        _ => false,
    }
}

fn is_malformed(statement: Statement<'_>) -> bool
    ensures { result ≡ spec.is_malformed (said statement.entry) }
{
    match statement {
        Statement::Cable(_, _, _, _, Some(delayed)) => delayed != "delayed",
        Statement::At(_, _, Deeds::PatchSet(_, form, _)) => form != "fixed" && form != "int",
        _ => false,
    }
}
