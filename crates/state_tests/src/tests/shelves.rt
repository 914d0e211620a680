use state_store::{BAD_FLAGS, BAD_TYPE, NO_SPACE, Props, SUCCESS, Shelf};
use std::alloc::Global;
use std::test::Fail;

/// Keys and types are the numbers 1 to 300.
const MAPPED: u32 = 300;

/// The rules in their order: a key or a type without a number, then flags, then room.
fn is_judged(shelf: &mut Shelf, long: &[u8]) -> bool {
    shelf.store(0, 301, 4, long) == BAD_TYPE
        && shelf.store(301, 1, 4, long) == BAD_TYPE
        && shelf.store(1, 0, 4, long) == BAD_TYPE
        && shelf.store(1, 301, 3, &[]) == BAD_TYPE
        && shelf.store(1, 1, 4, long) == BAD_FLAGS
        && shelf.store(1, 1, 1, &[]) == BAD_FLAGS
        && shelf.store(1, 1, 7, long) == NO_SPACE
}

fn holds(props: &Props, key: u32, kind: u32, bytes: &[u8]) -> bool {
    props
        .retrieve(key)
        .is_some_and(|prop| prop.kind == kind && prop.bytes.as_slice() == bytes)
}

#[test]
fn judges_key_and_type_then_flags_then_room(rt: HostRuntime) -> Result<(), Fail> {
    let long = Vec::from_elem(rt.alloc(), 0u8, 65537)?;
    let mut shelf = Shelf::with_room(rt.alloc(), MAPPED)?;
    assert!(rt; is_judged(&mut shelf, long.as_slice()));
    let props = shelf.finish()?;
    assert!(rt; props.rows().next().is_none());
    Ok(())
}

/// Stores two keys, the greater first, and the first of them again.
fn stores_three(shelf: &mut Shelf) -> bool {
    shelf.store(300, 14, 3, &[1, 2, 3]) == SUCCESS
        && shelf.store(2, 300, 7, &[4]) == SUCCESS
        && shelf.store(300, 1, 7, &[5, 6]) == SUCCESS
}

fn are_the_three(props: &Props) -> bool {
    holds(props, 300, 1, &[5, 6]) && holds(props, 2, 300, &[4]) && props.retrieve(14).is_none()
}

#[test]
fn keeps_the_latest_value_of_each_key(rt: HostRuntime) -> Result<(), Fail> {
    let mut shelf = Shelf::with_room(rt.alloc(), MAPPED)?;
    assert!(rt; stores_three(&mut shelf));
    let props = shelf.finish()?;
    let copy = props.copy()?;
    assert!(rt; are_the_three(&props));
    assert!(rt; are_the_three(&copy));
    Ok(())
}

/// Stores one byte under each of the keys 1 to 256.
fn fills(shelf: &mut Shelf) -> bool {
    (1..=256).all(|key| shelf.store(key, 1, 3, &[9]) == SUCCESS)
}

#[test]
fn has_room_for_256_properties(rt: HostRuntime) -> Result<(), Fail> {
    let mut shelf = Shelf::with_room(rt.alloc(), MAPPED)?;
    assert!(rt; fills(&mut shelf));
    assert_eq!(rt; shelf.store(257, 1, 3, &[]), NO_SPACE);
    assert_eq!(rt; shelf.store(256, 1, 3, &[7]), SUCCESS);
    Ok(())
}

/// A former value isn't counted: 65,535 bytes beside one byte, and 65,536 in place of them only where that byte is no longer there.
fn counts_bytes(shelf: &mut Shelf, most: &[u8], less: &[u8]) -> bool {
    shelf.store(1, 1, 3, less) == SUCCESS
        && shelf.store(2, 1, 3, &[1]) == SUCCESS
        && shelf.store(1, 1, 3, most) == NO_SPACE
        && shelf.store(2, 1, 3, &[]) == SUCCESS
        && shelf.store(1, 1, 3, most) == SUCCESS
        && shelf.store(1, 1, 3, most) == SUCCESS
}

#[test]
fn has_room_for_65536_bytes(rt: HostRuntime) -> Result<(), Fail> {
    let alloc: Global = rt.alloc();
    let most = Vec::from_elem(alloc, 7u8, 65536)?;
    let less = Vec::from_elem(alloc, 7u8, 65535)?;
    let mut shelf = Shelf::with_room(alloc, MAPPED)?;
    assert!(rt; counts_bytes(&mut shelf, most.as_slice(), less.as_slice()));
    let props = shelf.finish()?;
    assert!(rt; holds(&props, 1, 1, most.as_slice()));
    Ok(())
}
