use lv_base::Text;
use std::alloc::Global;
use std::test::Fail;
use urid_map::{Urids, is_iri_text};

/// Whether a number is that of a URI, as a line says: the number, a space and the URI.
fn has(urids: &Urids, line: &str) -> bool {
    let Some((number, uri)) = line.split_once(' ') else {
        return false;
    };
    match number.parse() {
        Ok(number) => urids
            .unmap(number)
            .is_some_and(|found| found.as_str() == uri),
        Err(_) => false,
    }
}

/// Some of the numbers that URIs have from the start.
const TABLE: &str = "1 http://lv2plug.in/ns/ext/atom#Int
14 urn:lv2fx:Fixed
15 http://lv2plug.in/ns/ext/patch#Get
23 http://lv2plug.in/ns/ext/buf-size#minBlockLength
25 http://lv2plug.in/ns/ext/atom#Path";

fn holds_the_table(urids: &Urids) -> bool {
    TABLE.lines().all(|line| has(urids, line))
        && urids.held() == 25
        && urids.unmap(0).is_none()
        && urids.unmap(26).is_none()
}

#[test]
fn begins_with_the_table(rt: HostRuntime) -> Result<(), Fail> {
    let urids = Urids::new(rt.alloc())?;
    assert!(rt; holds_the_table(&urids));
    Ok(())
}

/// Whether a URI is an IRI in full, and gets the number 26 each time that it is mapped.
fn is_mapped(urids: &mut Urids, uri: &Text) -> bool {
    is_iri_text(uri)
        && matches!(urids.map(uri), Ok(26))
        && matches!(urids.map(uri), Ok(26))
        && has(urids, "26 urn:lv2fx:level")
}

#[test]
fn maps_a_uri_once(rt: HostRuntime) -> Result<(), Fail> {
    let mut urids = Urids::with_seed(rt.alloc(), 7)?;
    let level = Text::from_str(rt.alloc(), "urn:lv2fx:level")?;
    assert!(rt; is_mapped(&mut urids, &level));
    Ok(())
}

/// IRIs in full.
const IRIS: &str = "urn:lv2fx:level
a:
urn:\u{e9}";

/// Texts that are none: without a scheme, or with a character that may not stand between angle brackets.
const NO_IRIS: &str = "level
/a:b
:a

urn:a b
urn:<a>
urn:a\\b";

fn is_iri(alloc: Global, text: &str) -> bool {
    match Text::from_str(alloc, text) {
        Ok(text) => is_iri_text(&text),
        Err(_) => false,
    }
}

#[test]
fn knows_iris_in_full(rt: HostRuntime) {
    for text in IRIS.lines() {
        assert!(rt; is_iri(rt.alloc(), text), "{text}");
    }
}

#[test]
fn knows_what_is_no_iri(rt: HostRuntime) {
    for text in NO_IRIS.lines() {
        assert!(rt; !is_iri(rt.alloc(), text), "{text}");
    }
}
