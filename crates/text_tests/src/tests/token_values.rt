//! What tokens stand for.

use crate::tests::assert_text;
use lv_base::{NoMemory, Text};
use std::alloc::Global;
use std::process::Abort;
use std::test::Fail;
use turtle_value::{
    Quotes, expand, plain_reference, prefix_text, reference_text, string_text, tag_text,
};

fn assert_says(
    rt: &impl Abort,
    alloc: Global,
    quotes: Quotes,
    token: &str,
    says: &str,
) -> Result<(), NoMemory> {
    let text = string_text(alloc, quotes, token)?;
    assert_text(rt, text.as_str(), says);
    Ok(())
}

#[test]
fn short_strings(rt: HostRuntime) -> Result<(), Fail> {
    let alloc = rt.alloc();
    assert_says(&rt, alloc, Quotes::Double, "\"\"", "")?;
    let token = "\"a\\tb\\\"\\u00e9\\U0001F600\"";
    assert_says(&rt, alloc, Quotes::Double, token, "a\tb\"é😀")?;
    let token = "'\\b\\n\\r\\f\\'\\\\'";
    assert_says(&rt, alloc, Quotes::Single, token, "\u{8}\n\r\u{c}'\\")?;
    Ok(())
}

#[test]
fn long_strings(rt: HostRuntime) -> Result<(), Fail> {
    let alloc = rt.alloc();
    let token = "\"\"\"a \"b\"\n\"\"\"";
    assert_says(&rt, alloc, Quotes::LongDouble, token, "a \"b\"\n")?;
    assert_says(&rt, alloc, Quotes::LongSingle, "'''it's'''", "it's")?;
    Ok(())
}

#[test]
fn references(rt: HostRuntime) -> Result<(), Fail> {
    let reference = reference_text(rt.alloc(), "<a\\u0041>")?;
    assert_text(&rt, reference.as_str(), "aA");
    Ok(())
}

#[test]
fn references_without_escapes(rt: HostRuntime) {
    assert!(rt; plain_reference("<a>").is_some_and(|text| text == "a"));
    assert!(rt; plain_reference("<a\\u0041>").is_none());
    assert!(rt; prefix_text("p:b:c") == "p");
}

#[test]
fn names(rt: HostRuntime) -> Result<(), Fail> {
    let namespace = Text::from_str(rt.alloc(), "http://e.x/d/q#")?;
    let iri = expand(rt.alloc(), &namespace, "p:b%20c\\,d:e")?;
    assert_text(&rt, iri.as_str(), "http://e.x/d/q#b%20c,d:e");
    Ok(())
}

#[test]
fn language_tags(rt: HostRuntime) -> Result<(), Fail> {
    let tag = tag_text(rt.alloc(), "@de-AT")?;
    assert_text(&rt, tag.as_str(), "de-AT");
    Ok(())
}
