use super::answers::ROW;
use atom_forge::{Forge, NoRoom};
use lv_base::Fixed;
use std::test::Fail;

/// A sequence of one event at frame 0, a patch:Set of property 26 to a Fixed of 0.25.
fn write_set(forge: &mut Forge) -> Result<(), NoRoom> {
    forge.clear();
    forge.sequence()?;
    forge.event(0)?;
    forge.object(0, 16)?;
    forge.key(18)?;
    forge.urid(26)?;
    forge.key(19)?;
    forge.fixed(Fixed(1 << 22))?;
    forge.pop();
    forge.pop();
    Ok(())
}

#[test]
fn a_set_in_a_sequence(rt: HostRuntime) -> Result<(), Fail> {
    let mut forge = Forge::with_room(rt.alloc(), 88)?;
    assert_eq!(rt; write_set(&mut forge), Ok(()));
    assert!(rt; forge.done() == ROW.as_slice());
    Ok(())
}

#[test]
fn no_room_for_the_last_atom(rt: HostRuntime) -> Result<(), Fail> {
    let mut forge = Forge::with_room(rt.alloc(), 87)?;
    assert_eq!(rt; write_set(&mut forge), Err(NoRoom));
    assert_eq!(rt; forge.done().len(), 72);
    Ok(())
}

/// Writes an Int alone.
fn writes_int(forge: &mut Forge) -> bool {
    forge.clear();
    forge.int(-2).is_ok() && forge.done() == [4, 0, 0, 0, 1, 0, 0, 0, 254, 255, 255, 255].as_slice()
}

/// Writes a Long alone.
fn writes_long(forge: &mut Forge) -> bool {
    forge.clear();
    forge.long(1 << 32).is_ok()
        && forge.done() == [8, 0, 0, 0, 2, 0, 0, 0, 0, 0, 0, 0, 1, 0, 0, 0].as_slice()
}

#[test]
fn outer_numbers(rt: HostRuntime) -> Result<(), Fail> {
    let mut forge = Forge::with_room(rt.alloc(), 16)?;
    let both = writes_int(&mut forge) && writes_long(&mut forge);
    assert!(rt; both);
    Ok(())
}

#[test]
fn an_outer_string(rt: HostRuntime) -> Result<(), Fail> {
    let mut forge = Forge::with_room(rt.alloc(), 11)?;
    assert_eq!(rt; forge.string("hi".as_bytes()), Ok(()));
    assert!(rt; forge.done() == [3, 0, 0, 0, 5, 0, 0, 0, b'h', b'i', 0].as_slice());
    Ok(())
}

/// Writes an Int alone, and looks at it.
fn int_again(forge: &mut Forge, number: i32) -> Option<i32> {
    forge.clear();
    match forge.int(number) {
        Ok(()) => forge.view().int(),
        Err(NoRoom) => None,
    }
}

#[test]
fn an_atom_that_was_forged_is_viewed(rt: HostRuntime) -> Result<(), Fail> {
    let mut forge = Forge::with_room(rt.alloc(), 12)?;
    assert_eq!(rt; int_again(&mut forge, -5), Some(-5));
    Ok(())
}

/// Opens a sequence, writes the time of an event and takes it back.
fn take_back(forge: &mut Forge) -> Result<(), NoRoom> {
    forge.clear();
    forge.sequence()?;
    let mark = forge.mark();
    forge.event(7)?;
    forge.back(mark);
    Ok(())
}

#[test]
fn an_event_is_taken_back(rt: HostRuntime) -> Result<(), Fail> {
    let mut forge = Forge::with_room(rt.alloc(), 24)?;
    assert_eq!(rt; take_back(&mut forge), Ok(()));
    assert_eq!(rt; forge.done().len(), 16);
    Ok(())
}

/// Writes a Chunk alone.
fn writes_chunk(forge: &mut Forge) -> bool {
    forge.clear();
    forge.raw(11, &[1, 2, 3]).is_ok()
        && forge.done() == [3, 0, 0, 0, 11, 0, 0, 0, 1, 2, 3].as_slice()
}

#[test]
fn an_outer_chunk(rt: HostRuntime) -> Result<(), Fail> {
    let mut forge = Forge::with_room(rt.alloc(), 11)?;
    let whole = writes_chunk(&mut forge);
    assert!(rt; whole);
    Ok(())
}

/// A sequence of one event at frame 0, an Object of type 16 with a Chunk after the key 18.
const CHUNK_WITHIN: [u8; 64] = [
    56, 0, 0, 0, 10, 0, 0, 0, 0, 0, 0, 0, 0, 0, 0, 0, 0, 0, 0, 0, 0, 0, 0, 0, 32, 0, 0, 0, 9, 0, 0,
    0, 0, 0, 0, 0, 16, 0, 0, 0, 18, 0, 0, 0, 0, 0, 0, 0, 3, 0, 0, 0, 11, 0, 0, 0, 1, 2, 3, 0, 0, 0,
    0, 0,
];

/// Writes a Chunk in an object in a sequence, begins a second property with an object of its own, and takes that back.
fn take_back_within(forge: &mut Forge) -> Result<(), NoRoom> {
    forge.clear();
    forge.sequence()?;
    forge.event(0)?;
    forge.object(0, 16)?;
    forge.key(18)?;
    forge.raw(11, &[1, 2, 3])?;
    let mark = forge.mark();
    forge.key(19)?;
    forge.object(0, 0)?;
    forge.key(20)?;
    forge.back(mark);
    forge.pop();
    forge.pop();
    Ok(())
}

#[test]
fn an_object_is_taken_back(rt: HostRuntime) -> Result<(), Fail> {
    let mut forge = Forge::with_room(rt.alloc(), 96)?;
    assert_eq!(rt; take_back_within(&mut forge), Ok(()));
    assert!(rt; forge.done() == CHUNK_WITHIN.as_slice());
    Ok(())
}
