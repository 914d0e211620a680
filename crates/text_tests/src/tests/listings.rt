//! Listings byte for byte.

use lv_base::{Bytes, NoMemory, Text};
use std::alloc::Global;
use std::process::Abort;
use std::test::Fail;
use triple_list::push_listing;
use triple_store::{Term, Triple};

const STRING: &str = "http://www.w3.org/2001/XMLSchema#string";

fn literal(alloc: Global, text: &str, datatype: &str, lang: &str) -> Result<Term, NoMemory> {
    let text = Text::from_str(alloc, text)?;
    let datatype = Text::from_str(alloc, datatype)?;
    let lang = Text::from_str(alloc, lang)?;
    Ok(Term::Literal {
        text,
        datatype,
        lang,
    })
}

/// `_:12 <urn:p> "text"` with its tag or its datatype.
fn row(alloc: Global, text: &str, datatype: &str, lang: &str) -> Result<Triple, NoMemory> {
    let p = Text::from_str(alloc, "urn:p")?;
    let o = literal(alloc, text, datatype, lang)?;
    Ok(Triple {
        s: Term::Blank(12),
        p: Term::Iri(p),
        o,
    })
}

fn assert_bytes(rt: &impl Abort, read: &[u8], wanted: &str) {
    assert!(rt; read == wanted.as_bytes(), "{wanted}");
}

fn push_list(into: &mut Bytes, row: Triple) -> Result<(), NoMemory> {
    push_listing(into, &[row])
}

fn assert_lists(
    rt: &impl Abort,
    alloc: Global,
    (text, datatype, lang): (&str, &str, &str),
    wanted: &str,
) -> Result<(), Fail> {
    let mut into = Bytes::from_slice(alloc, b"> ")?;
    push_list(&mut into, row(alloc, text, datatype, lang)?)?;
    assert_bytes(rt, into.as_slice(), wanted);
    Ok(())
}

// What stands after a literal's text. The listing goes after what is there.
#[test]
fn kinds(rt: HostRuntime) -> Result<(), Fail> {
    let wanted = "> _:12 <urn:p> \"2.5\"^^<urn:decimal>\ntriples 1\n";
    assert_lists(&rt, rt.alloc(), ("2.5", "urn:decimal", ""), wanted)?;
    let wanted = "> _:12 <urn:p> \"x\"@en\ntriples 1\n";
    assert_lists(&rt, rt.alloc(), ("x", "urn:tagged", "en"), wanted)
}

// Each escape once, and what needs none.
#[test]
fn strings(rt: HostRuntime) -> Result<(), Fail> {
    let text = "a\\b\"c\nd\re\tf'ü\u{8}";
    let wanted = "> _:12 <urn:p> \"a\\\\b\\\"c\\nd\\re\\tf'ü\u{8}\"\ntriples 1\n";
    assert_lists(&rt, rt.alloc(), (text, STRING, ""), wanted)
}

// No row is a line of its count alone.
#[test]
fn no_row(rt: HostRuntime) -> Result<(), Fail> {
    let mut into = Bytes::new(rt.alloc());
    push_listing(&mut into, &[])?;
    assert_bytes(&rt, into.as_slice(), "triples 0\n");
    Ok(())
}
