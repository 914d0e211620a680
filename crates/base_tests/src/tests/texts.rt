use lv_base::{Bytes, Items, NoMemory, Text, TextFault};
use std::alloc::Global;
use std::test::Fail;

#[test]
fn a_text_of_bytes(rt: HostRuntime) -> Result<(), Fail> {
    let text = Text::from_bytes(rt.alloc(), b"caf\xc3\xa9").map_err(|_| "refused")?;
    assert!(rt; text.as_str() == "caf\u{e9}");
    Ok(())
}

/// Where the first bad sequence begins.
fn bad_place(alloc: Global, bytes: &[u8]) -> Option<usize> {
    match Text::from_bytes(alloc, bytes) {
        Err(TextFault::NotUtf8(at)) => Some(at),
        _ => None,
    }
}

#[test]
fn bytes_that_are_no_text(rt: HostRuntime) {
    assert!(rt; bad_place(rt.alloc(), b"ab\xc3\xa9\xff!") == Some(4));
}

fn is_copy(copy: &Text, text: &Text) -> bool {
    copy == text && copy.cmp(text).is_eq() && copy.as_bytes() == b"caf\xc3\xa9".as_slice()
}

#[test]
fn a_text_of_a_string(rt: HostRuntime) -> Result<(), Fail> {
    let text = Text::from_string(String::from_str(rt.alloc(), "caf\u{e9}")?)?;
    let copy = text.clone()?;
    assert!(rt; is_copy(&copy, &text));
    Ok(())
}

fn is_printed(alloc: Global, text: &Text) -> Result<bool, Fail> {
    let printed = format!(in alloc; "{text} {text:?} {}", NoMemory)?;
    Ok(printed.as_str() == "a\"b \"a\\\"b\" no memory")
}

#[test]
fn texts_are_printed(rt: HostRuntime) -> Result<(), Fail> {
    let text = Text::from_str(rt.alloc(), "a\"b")?;
    let is_printed = is_printed(rt.alloc(), &text)?;
    assert!(rt; is_printed);
    Ok(())
}

/// Whether the bytes are `ab`, then with more `abc` and the greatest number of 64 bits, and none when cleared.
fn grow(bytes: &mut Bytes) -> bool {
    let is_short = bytes.as_slice() == b"ab".as_slice();
    let is_pushed = bytes.push_str("c").is_ok() && bytes.push_decimal(u64::MAX).is_ok();
    let is_long = bytes.as_slice() == b"abc18446744073709551615".as_slice();
    bytes.clear();
    is_short && is_pushed && is_long && bytes.len() == 0
}

#[test]
fn bytes_grow(rt: HostRuntime) -> Result<(), Fail> {
    let mut bytes = Bytes::from_slice(rt.alloc(), b"ab")?;
    assert!(rt; grow(&mut bytes));
    Ok(())
}

fn shared<T: Send + Sync>(_: &T) {}

#[test]
fn texts_are_shared_by_threads(rt: HostRuntime) -> Result<(), Fail> {
    shared(&Text::from_str(rt.alloc(), "a")?);
    Ok(())
}

#[test]
fn lists_are_shared_by_threads(rt: HostRuntime) {
    let texts: Items<Text> = Items::new(rt.alloc());
    shared(&texts);
    shared(&Bytes::from_vec(Vec::new(rt.alloc())));
}
