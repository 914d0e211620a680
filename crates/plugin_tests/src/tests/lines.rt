//! The lines of plug-ins and of rules, byte for byte, and the plug-ins of a store.
ghost use Rattle.std.specs.Prelude.{◌≡◌, ◌≤◌, ◌^◌, IfOk};
ghost use Rattle.triple_store.specs.Triples.{blanks_of_term, blanks_of_triple};

use super::amplifier::{amplifier, declared};
use lv_base::{Bytes, NoMemory, Text};
use plugin_decl::{Decl, DeclFault};
use plugin_list::{plugins, push_count, push_plugin, push_rule};
use std::alloc::Global;
use std::process::Abort;
use std::test::Fail;
use triple_store::{Store, Term, Triple};

const LINES: &str = "plugin urn:amp 2 10
port 0 gain input control
port 1 in input audio
port 2 out output cv
plugins 1
";

/// Adds the lines of a plug-in, if it was accepted.
fn push_answer(into: &mut Bytes, answer: &Result<Decl, DeclFault>) -> Result<(), NoMemory> {
    if let Ok(decl) = answer {
        push_plugin(into, decl)?;
    }
    push_count(into, 1)
}

fn push_lines(alloc: Global, store: &Store, into: &mut Bytes) -> Result<(), NoMemory> {
    let answer = declared(alloc, store, 256);
    push_answer(into, &answer)
}

fn has_lines(rt: &impl Abort, alloc: Global, store: &Store) -> Result<(), Fail> {
    let mut into = Bytes::new(alloc);
    push_lines(alloc, store, &mut into)?;
    assert!(rt; into.as_slice() == LINES.as_bytes());
    Ok(())
}

#[test]
fn lines_of_a_plugin(rt: HostRuntime) -> Result<(), Fail> {
    let without = "urn:2 rdf:type lv2:AudioPort";
    let with = "urn:2 rdf:type lv2:CVPort;urn:amp lv2:minorVersion '2;urn:amp lv2:microVersion '10";
    let store = amplifier(rt.alloc(), without, with)?;
    has_lines(&rt, rt.alloc(), &store)
}

fn iri(alloc: Global, characters: &str) -> Result<Term, NoMemory>
    ensures { IfOk result (λ term. blanks_of_term term ≡ 0) }
{
    Ok(Term::Iri(Text::from_str(alloc, characters)?))
}

fn tagged(alloc: Global, text: &str, lang: &str) -> Result<Term, NoMemory> {
    Ok(Term::Literal {
        text: Text::from_str(alloc, text)?,
        datatype: Text::from_str(
            alloc,
            "http://www.w3.org/1999/02/22-rdf-syntax-ns#langString",
        )?,
        lang: Text::from_str(alloc, lang)?,
    })
}

/// Asserts that this is the text of a fault.
fn says(rt: &impl Abort, alloc: Global, fault: &DeclFault, text: &str) -> Result<(), Fail> {
    let mut into = Bytes::new(alloc);
    push_rule(&mut into, fault)?;
    assert!(rt; into.as_slice() == text.as_bytes(), "{text}");
    Ok(())
}

#[test]
fn a_rule_of_a_blank_node(rt: HostRuntime) -> Result<(), Fail> {
    let feature = DeclFault::Feature(Term::Blank(3));
    says(&rt, rt.alloc(), &feature, "feature _:3")
}

#[test]
fn a_rule_of_a_literal(rt: HostRuntime) -> Result<(), Fail> {
    let option = DeclFault::RequiredOption(tagged(rt.alloc(), "text", "en")?);
    says(&rt, rt.alloc(), &option, "option \"text\"@en")
}

#[test]
fn want_of_memory_has_no_text(rt: HostRuntime) -> Result<(), Fail> {
    says(&rt, rt.alloc(), &DeclFault::NoMemory, "")
}

/// The subject is of a class.
fn is_a(alloc: Global, s: Term, class: &str) -> Result<Triple, NoMemory>
    requires { blanks_of_term s ≤ 100 }
    ensures { IfOk result (λ row. blanks_of_triple row ≤ 2 ^ 31) }
{
    let p = iri(alloc, "http://www.w3.org/1999/02/22-rdf-syntax-ns#type")?;
    let o = iri(alloc, class)?;
    Ok(Triple { s, p, o })
}

const PLUGIN: &str = "http://lv2plug.in/ns/lv2core#Plugin";

fn add(alloc: Global, store: &mut Store, s: Term, class: &str) -> Result<(), Fail>
    requires { blanks_of_term s ≤ 100 }
{
    store.add(is_a(alloc, s, class)?)?;
    Ok(())
}

fn add_iri(alloc: Global, store: &mut Store, subject: &str, class: &str) -> Result<(), Fail> {
    add(alloc, store, iri(alloc, subject)?, class)
}

/// Two plug-ins with IRIs, a blank one between them, and a subject of another class.
fn fill(alloc: Global, store: &mut Store) -> Result<(), Fail> {
    add_iri(alloc, store, "urn:b", PLUGIN)?;
    add(alloc, store, Term::Blank(0), PLUGIN)?;
    add_iri(alloc, store, "urn:c", "urn:other")?;
    add_iri(alloc, store, "urn:a", PLUGIN)
}

/// The IRIs, each with a space after it.
fn joined(alloc: Global, uris: &[Text]) -> Result<String, Fail> {
    let mut all = String::new(alloc);
    for uri in uris {
        all.push_str(uri.as_str())?;
        all.push_str(" ")?;
    }
    Ok(all)
}

fn plugins_text(alloc: Global, store: &Store) -> Result<String, Fail> {
    let uris = plugins(alloc, store)?;
    joined(alloc, uris.as_slice())
}

fn filled_text(alloc: Global) -> Result<String, Fail> {
    let mut store = Store::new(alloc);
    fill(alloc, &mut store)?;
    plugins_text(alloc, &store)
}

#[test]
fn a_blank_between_two(rt: HostRuntime) -> Result<(), Fail> {
    let text = filled_text(rt.alloc())?;
    assert_eq!(rt; text.as_str(), "urn:b urn:a ");
    Ok(())
}
