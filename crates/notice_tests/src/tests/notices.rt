use super::atoms::{GET, SET};
use atom_core::{events_of, read};
use lv_base::{Bytes, NoMemory};
use run_notices::{Notices, tell};
use std::alloc::Global;
use std::test::Fail;
use step_record::Parcel;

/// A Sequence of 432 bytes of events.
const HEAD: [u32; 4] = [440, 10, 0, 0];

/// An Int, 7.
const INT: [u32; 4] = [4, 1, 7, 0];

/// A patch:Put of 280 bytes, up to the properties of its body.
const LONG_PUT: [u32; 10] = [272, 9, 0, 17, 21, 0, 248, 9, 0, 0];

/// A property, 26, as the Int 1.
const PROPERTY: [u32; 6] = [26, 0, 4, 1, 1, 0];

fn push_words(bytes: &mut Bytes, words: &[u32]) -> Result<(), NoMemory> {
    for word in words {
        bytes.push_all(&word.to_le_bytes())?;
    }
    Ok(())
}

fn push_long_put(bytes: &mut Bytes) -> Result<(), NoMemory> {
    push_words(bytes, &LONG_PUT)?;
    for _ in 0..10 {
        push_words(bytes, &PROPERTY)?;
    }
    Ok(())
}

/// A Set, an Int, a Put that is too long, and a Get, each at a time of its own.
fn sequence(alloc: Global) -> Result<Bytes, NoMemory> {
    let mut bytes = Bytes::new(alloc);
    push_words(&mut bytes, &HEAD)?;
    push_words(&mut bytes, &[0, 0])?;
    bytes.push_all(&SET)?;
    push_words(&mut bytes, &[1, 0])?;
    push_words(&mut bytes, &INT)?;
    push_words(&mut bytes, &[2, 0])?;
    push_long_put(&mut bytes)?;
    push_words(&mut bytes, &[3, 0])?;
    bytes.push_all(&GET)?;
    Ok(bytes)
}

/// What the events of a sequence tell.
fn told(bytes: &[u8]) -> Option<Notices> {
    let Ok(view) = read(bytes) else {
        return None;
    };
    let mut notices = Notices::new();
    tell(events_of(view)?, &mut notices);
    Some(notices)
}

fn is_short(notice: &Option<Parcel>, bytes: &[u8]) -> bool {
    match notice {
        Some(parcel) => parcel.as_slice() == bytes,
        None => false,
    }
}

fn are_told(notices: &[Option<Parcel>]) -> bool {
    match notices {
        [set, put, get] => is_short(set, &SET) && put.is_none() && is_short(get, &GET),
        _ => false,
    }
}

#[test]
fn messages_are_told(rt: HostRuntime) -> Result<(), Fail> {
    let bytes = sequence(rt.alloc())?;
    let notices = told(bytes.as_slice());
    assert!(rt; notices.is_some_and(|notices| are_told(notices.as_slice())));
    Ok(())
}
