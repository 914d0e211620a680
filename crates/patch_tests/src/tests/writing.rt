use super::reading::SEQUENCE;
use atom_forge::{Forge, NoRoom};
use lv_base::Fixed;
use patch_control::{Value, write_get, write_put, write_set};
use std::test::Fail;

/// A patch:Get of the property 26.
const GET: [u8; 40] = [
    32, 0, 0, 0, 9, 0, 0, 0, 0, 0, 0, 0, 15, 0, 0, 0, 18, 0, 0, 0, 0, 0, 0, 0, 4, 0, 0, 0, 4, 0, 0,
    0, 26, 0, 0, 0, 0, 0, 0, 0,
];

/// A patch:Get of all.
const GET_ALL: [u8; 16] = [8, 0, 0, 0, 9, 0, 0, 0, 0, 0, 0, 0, 15, 0, 0, 0];

/// A patch:Put of the property 26 as the Int -2, and of the property 27 as 0.25.
const PUT: [u8; 88] = [
    80, 0, 0, 0, 9, 0, 0, 0, 0, 0, 0, 0, 17, 0, 0, 0, 21, 0, 0, 0, 0, 0, 0, 0, 56, 0, 0, 0, 9, 0,
    0, 0, 0, 0, 0, 0, 0, 0, 0, 0, 26, 0, 0, 0, 0, 0, 0, 0, 4, 0, 0, 0, 1, 0, 0, 0, 254, 255, 255,
    255, 0, 0, 0, 0, 27, 0, 0, 0, 0, 0, 0, 0, 8, 0, 0, 0, 14, 0, 0, 0, 0, 0, 64, 0, 0, 0, 0, 0,
];

fn get_alone(forge: &mut Forge, property: u32) -> Result<(), NoRoom> {
    forge.clear();
    write_get(forge, property)
}

fn put_alone(forge: &mut Forge) -> Result<(), NoRoom> {
    forge.clear();
    write_put(
        forge,
        &[(26, Value::Int(-2)), (27, Value::Fixed(Fixed(1 << 22)))],
    )
}

/// A patch:Set in a sequence.
fn set_within(forge: &mut Forge) -> Result<(), NoRoom> {
    forge.clear();
    forge.sequence()?;
    forge.event(0)?;
    write_set(forge, 26, &Value::Fixed(Fixed(1 << 22)))?;
    forge.pop();
    Ok(())
}

#[test]
fn gets(rt: HostRuntime) -> Result<(), Fail> {
    let mut forge = Forge::with_room(rt.alloc(), 40)?;
    assert_eq!(rt; get_alone(&mut forge, 26), Ok(()));
    assert!(rt; forge.done() == GET.as_slice());
    Ok(())
}

#[test]
fn gets_all(rt: HostRuntime) -> Result<(), Fail> {
    let mut forge = Forge::with_room(rt.alloc(), 16)?;
    assert_eq!(rt; get_alone(&mut forge, 0), Ok(()));
    assert!(rt; forge.done() == GET_ALL.as_slice());
    Ok(())
}

#[test]
fn sets(rt: HostRuntime) -> Result<(), Fail> {
    let mut forge = Forge::with_room(rt.alloc(), 88)?;
    assert_eq!(rt; set_within(&mut forge), Ok(()));
    assert!(rt; forge.done() == SEQUENCE.as_slice());
    Ok(())
}

#[test]
fn puts(rt: HostRuntime) -> Result<(), Fail> {
    let mut forge = Forge::with_room(rt.alloc(), 88)?;
    assert_eq!(rt; put_alone(&mut forge), Ok(()));
    assert!(rt; forge.done() == PUT.as_slice());
    Ok(())
}

#[test]
fn no_room_leaves_nothing(rt: HostRuntime) -> Result<(), Fail> {
    let mut forge = Forge::with_room(rt.alloc(), 87)?;
    assert_eq!(rt; put_alone(&mut forge), Err(NoRoom));
    assert!(rt; forge.done().is_empty());
    Ok(())
}

#[test]
fn no_room_in_a_sequence(rt: HostRuntime) -> Result<(), Fail> {
    let mut forge = Forge::with_room(rt.alloc(), 87)?;
    assert_eq!(rt; set_within(&mut forge), Err(NoRoom));
    assert_eq!(rt; forge.done().len(), 24);
    Ok(())
}
