use atom_core::{AtomView, read};
use lv_base::Fixed;

const INT: [u8; 12] = [4, 0, 0, 0, 1, 0, 0, 0, 0xFE, 0xFF, 0xFF, 0xFF];

const LONG: [u8; 16] = [8, 0, 0, 0, 2, 0, 0, 0, 0, 0, 0, 0, 1, 0, 0, 0];

const URID: [u8; 12] = [4, 0, 0, 0, 4, 0, 0, 0, 26, 0, 0, 0];

const STRING: [u8; 11] = [3, 0, 0, 0, 5, 0, 0, 0, b'h', b'i', 0];

const FIXED: [u8; 16] = [8, 0, 0, 0, 14, 0, 0, 0, 0, 0, 0x40, 0, 0, 0, 0, 0];

fn int_in(bytes: &[u8]) -> Option<i32> {
    read(bytes).ok().and_then(|view| view.int())
}

fn long_in(bytes: &[u8]) -> Option<i64> {
    read(bytes).ok().and_then(|view| view.long())
}

fn urid_in(bytes: &[u8]) -> Option<u32> {
    read(bytes).ok().and_then(|view| view.urid())
}

fn fixed_in(bytes: &[u8]) -> Option<Fixed> {
    read(bytes).ok().and_then(|view| view.fixed())
}

fn is_text(bytes: &[u8], wanted: &[u8]) -> bool {
    match read(bytes) {
        Ok(view) => view.text() == Some(wanted),
        Err(_) => false,
    }
}

fn has_kind(view: AtomView<'_>, kind: u32, body: &[u8]) -> bool {
    view.kind() == kind && view.body() == body
}

#[test]
fn numbers(rt: HostRuntime) {
    assert_eq!(rt; int_in(&INT), Some(-2));
    assert_eq!(rt; long_in(&LONG), Some(1 << 32));
    assert_eq!(rt; urid_in(&URID), Some(26));
    assert_eq!(rt; fixed_in(&FIXED), Some(Fixed(1 << 22)));
}

#[test]
fn other_types(rt: HostRuntime) {
    assert_eq!(rt; int_in(&URID), None);
    assert_eq!(rt; long_in(&FIXED), None);
    assert_eq!(rt; long_in(&INT), None);
    assert!(rt; !is_text(&INT, b""));
}

#[test]
fn texts(rt: HostRuntime) {
    assert!(rt; is_text(&STRING, b"hi"));
    assert!(rt; read(&STRING).is_ok_and(|view| has_kind(view, 5, b"hi\0")));
}

/// A tuple of an Int, with its padding, and of a String.
const TUPLE: [u8; 40] = [
    32, 0, 0, 0, 8, 0, 0, 0, 4, 0, 0, 0, 1, 0, 0, 0, 7, 0, 0, 0, 0, 0, 0, 0, 3, 0, 0, 0, 5, 0, 0,
    0, b'h', b'i', 0, 0, 0, 0, 0, 0,
];

fn is_int(view: Option<AtomView<'_>>, wanted: i32) -> bool {
    view.and_then(|view| view.int()) == Some(wanted)
}

fn is_string(view: Option<AtomView<'_>>, wanted: &[u8]) -> bool {
    view.and_then(|view| view.text()) == Some(wanted)
}

#[test]
fn tuple(rt: HostRuntime) {
    if let Ok(view) = read(&TUPLE) {
        let mut parts = view.parts().expect(&rt, "a tuple");
        assert!(rt; is_int(parts.next(), 7));
        assert!(rt; is_string(parts.next(), b"hi"));
        assert!(rt; parts.next().is_none());
    }
    assert!(rt; read(&TUPLE).is_ok());
}

/// An Object of type patch:Set: a patch:property of 26 and a patch:value of 0.25.
const OBJECT: [u8; 64] = [
    56, 0, 0, 0, 9, 0, 0, 0, 0, 0, 0, 0, 16, 0, 0, 0, 18, 0, 0, 0, 3, 0, 0, 0, 4, 0, 0, 0, 4, 0, 0,
    0, 26, 0, 0, 0, 0, 0, 0, 0, 19, 0, 0, 0, 0, 0, 0, 0, 8, 0, 0, 0, 14, 0, 0, 0, 0, 0, 0x40, 0, 0,
    0, 0, 0,
];

fn is_urid(found: Option<(u32, u32, AtomView<'_>)>, wanted: (u32, u32, u32)) -> bool {
    match found {
        Some((key, context, view)) => {
            (key, context) == (wanted.0, wanted.1) && view.urid() == Some(wanted.2)
        }
        None => false,
    }
}

fn is_fixed(found: Option<(u32, u32, AtomView<'_>)>, key: u32, wanted: Fixed) -> bool {
    match found {
        Some((found, _, view)) => found == key && view.fixed() == Some(wanted),
        None => false,
    }
}

#[test]
fn object(rt: HostRuntime) {
    if let Ok(view) = read(&OBJECT) {
        let mut properties = view.properties().expect(&rt, "an object");
        assert!(rt; is_urid(properties.next(), (18, 3, 26)));
        assert!(rt; is_fixed(properties.next(), 19, Fixed(1 << 22)));
        assert!(rt; properties.next().is_none());
    }
    assert!(rt; read(&OBJECT).is_ok());
}
