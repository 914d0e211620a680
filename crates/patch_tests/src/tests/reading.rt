use super::objects::{is_get, is_other, is_put, is_set, sets};
use atom_core::{events_of, read};
use std::test::Fail;

/// A sequence with one event at frame 0: a patch:Set of the property 26 to a Fixed of 0.25.
pub const SEQUENCE: [u8; 88] = [
    0x50, 0x00, 0x00, 0x00, 0x0A, 0x00, 0x00, 0x00, 0x00, 0x00, 0x00, 0x00, 0x00, 0x00, 0x00, 0x00,
    0x00, 0x00, 0x00, 0x00, 0x00, 0x00, 0x00, 0x00, 0x38, 0x00, 0x00, 0x00, 0x09, 0x00, 0x00, 0x00,
    0x00, 0x00, 0x00, 0x00, 0x10, 0x00, 0x00, 0x00, 0x12, 0x00, 0x00, 0x00, 0x00, 0x00, 0x00, 0x00,
    0x04, 0x00, 0x00, 0x00, 0x04, 0x00, 0x00, 0x00, 0x1A, 0x00, 0x00, 0x00, 0x00, 0x00, 0x00, 0x00,
    0x13, 0x00, 0x00, 0x00, 0x00, 0x00, 0x00, 0x00, 0x08, 0x00, 0x00, 0x00, 0x0E, 0x00, 0x00, 0x00,
    0x00, 0x00, 0x40, 0x00, 0x00, 0x00, 0x00, 0x00,
];

/// Whether the event's atom, which has its header and no padding, is the message.
fn event_sets() -> bool {
    let Ok(view) = read(&SEQUENCE) else {
        return false;
    };
    events_of(view).is_some() && sets(&SEQUENCE[24..], 0)
}

#[test]
fn a_set_in_a_sequence(rt: HostRuntime) {
    assert!(rt; event_sets());
}

#[test]
fn the_property_first(rt: HostRuntime) -> Result<(), Fail> {
    assert!(rt; is_set(rt.alloc(), b"pxvxs", 30)?);
    assert!(rt; is_set(rt.alloc(), b"pxsxv", 30)?);
    Ok(())
}

#[test]
fn the_value_first(rt: HostRuntime) -> Result<(), Fail> {
    assert!(rt; is_set(rt.alloc(), b"vxpxs", 30)?);
    assert!(rt; is_set(rt.alloc(), b"vxsxp", 30)?);
    Ok(())
}

#[test]
fn the_subject_first(rt: HostRuntime) -> Result<(), Fail> {
    assert!(rt; is_set(rt.alloc(), b"sxpxv", 30)?);
    assert!(rt; is_set(rt.alloc(), b"sxvxp", 30)?);
    Ok(())
}

#[test]
fn a_subject_of_0_is_absent(rt: HostRuntime) -> Result<(), Fail> {
    assert!(rt; is_set(rt.alloc(), b"npv", 0)?);
    assert!(rt; is_set(rt.alloc(), b"pv", 0)?);
    Ok(())
}

#[test]
fn gets(rt: HostRuntime) -> Result<(), Fail> {
    assert!(rt; is_get(rt.alloc(), b"", 0, 0)?);
    assert!(rt; is_get(rt.alloc(), b"sp", 26, 30)?);
    assert!(rt; is_get(rt.alloc(), b"i", 0, 0)?);
    Ok(())
}

#[test]
fn puts(rt: HostRuntime) -> Result<(), Fail> {
    assert!(rt; is_put(rt.alloc(), b"b", 0)?);
    assert!(rt; is_put(rt.alloc(), b"sxb", 30)?);
    Ok(())
}

#[test]
fn other_objects(rt: HostRuntime) -> Result<(), Fail> {
    assert!(rt; is_other(rt.alloc(), 14, b"pp")?);
    assert!(rt; is_other(rt.alloc(), 18, b"")?);
    Ok(())
}
