//! The usual amplifier, with some lines left out and others put after them.
ghost use Rattle.std.specs.Prelude.{◌≡◌, ◌≤◌, ◌^◌, IfOk};
ghost use Rattle.triple_store.specs.Triples.{blanks_of_term, blanks_of_triple};

use lv_base::{Bytes, Text};
use plugin_decl::{Decl, DeclFault, declare};
use plugin_list::push_rule;
use std::alloc::Global;
use std::test::Fail;
use triple_store::{Store, Term, Triple};

/// A gain, an input and an output. A line has a subject, a predicate and an object: `'text`, `'text@lang` or `prefix:name`.
const AMPLIFIER: &str = "urn:amp rdf:type lv2:Plugin
urn:amp rdf:type lv2:AmplifierPlugin
urn:amp doap:name 'Amp
urn:amp doap:name 'Verst@de
urn:amp lv2:optionalFeature lv2:hardRTCapable
urn:0 rdf:type lv2:InputPort
urn:0 rdf:type lv2:ControlPort
urn:0 lv2:index '0
urn:0 lv2:symbol 'gain
urn:0 lv2:name 'Pegel@de
urn:0 lv2:name 'Gain
urn:0 lv2:default '0.0
urn:0 lv2:minimum '-90.0
urn:0 lv2:maximum '24.0
urn:amp lv2:port urn:0
urn:2 rdf:type lv2:OutputPort
urn:2 rdf:type lv2:AudioPort
urn:2 lv2:index '+002
urn:2 lv2:symbol 'out
urn:2 lv2:name 'Out
urn:amp lv2:port urn:2
urn:1 rdf:type lv2:InputPort
urn:1 rdf:type lv2:AudioPort
urn:1 lv2:index '1
urn:1 lv2:symbol 'in
urn:1 lv2:name 'In
urn:amp lv2:port urn:1";

/// Each prefix, and what it stands for.
const PREFIXES: &str = "urn urn:
rdf http://www.w3.org/1999/02/22-rdf-syntax-ns#
lv2 http://lv2plug.in/ns/lv2core#
atom http://lv2plug.in/ns/ext/atom#
work http://lv2plug.in/ns/ext/worker#
state http://lv2plug.in/ns/ext/state#
patch http://lv2plug.in/ns/ext/patch#
urid http://lv2plug.in/ns/ext/urid#
options http://lv2plug.in/ns/ext/options#
bufsz http://lv2plug.in/ns/ext/buf-size#
rsz http://lv2plug.in/ns/ext/resize-port#
doap http://usefulinc.com/ns/doap#";

fn namespace(prefix: &str) -> &'static str {
    for line in PREFIXES.lines() {
        if let Some((known, namespace)) = line.split_once(' ') {
            if known == prefix {
                return namespace;
            }
        }
    }
    ""
}

fn iri(alloc: Global, word: &str) -> Result<Term, Fail>
    ensures { IfOk result (λ t. blanks_of_term t ≡ 0) }
{
    let (prefix, name) = word.split_once(':').ok_or("a prefix")?;
    let namespace = namespace(prefix);
    let iri = format!(in alloc; "{namespace}{name}")?;
    Ok(Term::Iri(Text::from_str(alloc, iri.as_str())?))
}

fn literal(alloc: Global, words: &str) -> Result<Term, Fail>
    ensures { IfOk result (λ t. blanks_of_term t ≡ 0) }
{
    let (text, lang) = words.split_once('@').unwrap_or((words, ""));
    let text = Text::from_str(alloc, text)?;
    let datatype = Text::from_str(alloc, "urn:string")?;
    let lang = Text::from_str(alloc, lang)?;
    Ok(Term::Literal {
        text,
        datatype,
        lang,
    })
}

fn term(alloc: Global, word: Option<&str>) -> Result<Term, Fail>
    ensures { IfOk result (λ t. blanks_of_term t ≡ 0) }
{
    let word = word.ok_or("a word")?;
    match word.strip_prefix('\'') {
        Some(words) => literal(alloc, words),
        None => iri(alloc, word),
    }
}

/// A row of three words.
fn row(alloc: Global, line: &str) -> Result<Triple, Fail>
    ensures { IfOk result (λ t. blanks_of_triple t ≤ 2 ^ 31) }
{
    let mut words = line.split_whitespace();
    let s = term(alloc, words.next())?;
    let p = term(alloc, words.next())?;
    let o = term(alloc, words.next())?;
    Ok(Triple { s, p, o })
}

fn add(alloc: Global, store: &mut Store, line: &str) -> Result<(), Fail> {
    store.add(row(alloc, line)?)?;
    Ok(())
}

/// Whether a line begins as one of some others, between which `;` stands.
fn begins_as_one(line: &str, fronts: &str) -> bool {
    for front in fronts.split(';') {
        if !front.is_empty() && line.starts_with(front) {
            return true;
        }
    }
    false
}

fn fill(alloc: Global, store: &mut Store, without: &str, with: &str) -> Result<(), Fail> {
    for line in AMPLIFIER.lines() {
        if !begins_as_one(line, without) {
            add(alloc, store, line)?;
        }
    }
    for line in with.split(';') {
        if !line.is_empty() {
            add(alloc, store, line)?;
        }
    }
    Ok(())
}

/// The amplifier without the lines that begin as some of these, and with others; between two of them stands `;`.
pub(super) fn amplifier(alloc: Global, without: &str, with: &str) -> Result<Store, Fail> {
    let mut store = Store::new(alloc);
    fill(alloc, &mut store, without, with)?;
    Ok(store)
}

fn rule_text(alloc: Global, fault: &DeclFault) -> Result<String, Fail> {
    let mut bytes = Bytes::new(alloc);
    push_rule(&mut bytes, fault)?;
    let text = Text::from_bytes(alloc, bytes.as_slice())
        .ok()
        .ok_or("a text")?;
    Ok(format!(in alloc; "{text}")?)
}

/// What is declared of the amplifier, for blocks of this length.
pub(super) fn declared(alloc: Global, store: &Store, block: u32) -> Result<Decl, DeclFault> {
    let uri = Text::from_str(alloc, "urn:amp")?;
    declare(alloc, store, &uri, block)
}

fn answer_text(alloc: Global, answer: &Result<Decl, DeclFault>) -> Result<String, Fail> {
    match answer {
        Ok(_) => Ok(String::from_str(alloc, "well")?),
        Err(fault) => rule_text(alloc, fault),
    }
}

/// The rule that the amplifier breaks, or `well`.
pub(super) fn broken(alloc: Global, store: &Store, block: u32) -> Result<String, Fail> {
    let answer = declared(alloc, store, block);
    answer_text(alloc, &answer)
}

/// What stands before and after a line's first `|`.
pub(super) fn cut(line: &str) -> (&str, &str) {
    let (front, rest) = line.split_once('|').unwrap_or((line, ""));
    (front.trim(), rest.trim())
}
