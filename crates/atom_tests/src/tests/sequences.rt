ghost use Rattle.atom_sequence.specs.Views.{IsSequence, IsInOrder};

use super::answers::ROW;
use atom_core::{AtomView, read};
use atom_forge::{Forge, NoRoom};
use atom_sequence::{MOST_VIEWS, Merger};
use std::test::Fail;

/// A sequence of an Int at frame 3 and one at frame 5.
const FIRST: [u8; 64] = [
    56, 0, 0, 0, 10, 0, 0, 0, 0, 0, 0, 0, 0, 0, 0, 0, 3, 0, 0, 0, 0, 0, 0, 0, 4, 0, 0, 0, 1, 0, 0,
    0, 7, 0, 0, 0, 0, 0, 0, 0, 5, 0, 0, 0, 0, 0, 0, 0, 4, 0, 0, 0, 1, 0, 0, 0, 8, 0, 0, 0, 0, 0, 0,
    0,
];

/// A sequence of an Int at frame 3.
const SECOND: [u8; 40] = [
    32, 0, 0, 0, 10, 0, 0, 0, 0, 0, 0, 0, 0, 0, 0, 0, 3, 0, 0, 0, 0, 0, 0, 0, 4, 0, 0, 0, 1, 0, 0,
    0, 9, 0, 0, 0, 0, 0, 0, 0,
];

/// Both: the events at frame 3 in order of adding, then the one at frame 5.
const BOTH: [u8; 88] = [
    80, 0, 0, 0, 10, 0, 0, 0, 0, 0, 0, 0, 0, 0, 0, 0, 3, 0, 0, 0, 0, 0, 0, 0, 4, 0, 0, 0, 1, 0, 0,
    0, 7, 0, 0, 0, 0, 0, 0, 0, 3, 0, 0, 0, 0, 0, 0, 0, 4, 0, 0, 0, 1, 0, 0, 0, 9, 0, 0, 0, 0, 0, 0,
    0, 5, 0, 0, 0, 0, 0, 0, 0, 4, 0, 0, 0, 1, 0, 0, 0, 8, 0, 0, 0, 0, 0, 0, 0,
];

/// A sequence of nothing.
const EMPTY: [u8; 16] = [8, 0, 0, 0, 10, 0, 0, 0, 0, 0, 0, 0, 0, 0, 0, 0];

/// Merges the events of two views into a sequence.
fn merge_both(forge: &mut Forge, first: AtomView<'_>, second: AtomView<'_>) -> Result<u32, NoRoom>
    requires first { IsSequence first.bytes.now × IsInOrder first.bytes.now }
    requires second { IsSequence second.bytes.now × IsInOrder second.bytes.now }
{
    let mut merger = Merger::new();
    merger.add(first);
    merger.add(second);
    forge.clear();
    forge.sequence()?;
    let written = merger.write(forge);
    forge.pop();
    Ok(written)
}

/// Merges two events at one time, and one after them.
fn merge_three(forge: &mut Forge) -> Option<u32> {
    let Ok(first) = read(&FIRST) else {
        return None;
    };
    let Ok(second) = read(&SECOND) else {
        return None;
    };
    merge_both(forge, first, second).ok()
}

#[test]
fn events_at_one_time(rt: HostRuntime) -> Result<(), Fail> {
    let mut forge = Forge::with_room(rt.alloc(), 88)?;
    assert_eq!(rt; merge_three(&mut forge), Some(3));
    assert!(rt; forge.done() == BOTH.as_slice());
    Ok(())
}

#[test]
fn no_room_for_the_third(rt: HostRuntime) -> Result<(), Fail> {
    let mut forge = Forge::with_room(rt.alloc(), 87)?;
    assert_eq!(rt; merge_three(&mut forge), Some(2));
    assert_eq!(rt; forge.done().len(), 64);
    Ok(())
}

/// Merges a sequence with a message and one of nothing.
fn merge_set(forge: &mut Forge) -> Option<u32> {
    let Ok(first) = read(&EMPTY) else {
        return None;
    };
    let Ok(second) = read(&ROW) else {
        return None;
    };
    merge_both(forge, first, second).ok()
}

#[test]
fn a_set_is_merged(rt: HostRuntime) -> Result<(), Fail> {
    let mut forge = Forge::with_room(rt.alloc(), 88)?;
    assert_eq!(rt; merge_set(&mut forge), Some(1));
    assert!(rt; forge.done() == ROW.as_slice());
    Ok(())
}

#[test]
fn no_room_for_the_set(rt: HostRuntime) -> Result<(), Fail> {
    let mut forge = Forge::with_room(rt.alloc(), 87)?;
    assert_eq!(rt; merge_set(&mut forge), Some(0));
    assert_eq!(rt; forge.done().len(), 16);
    Ok(())
}

/// Whether a merger takes one more view after so many.
fn takes_another(count: usize) -> bool {
    let Ok(view) = read(&EMPTY) else {
        return false;
    };
    let mut merger = Merger::new();
    for _ in 0..count {
        merger.add(view);
    }
    merger.add(view)
}

#[test]
fn views_are_limited(rt: HostRuntime) {
    assert!(rt; takes_another(MOST_VIEWS - 1));
    assert!(rt; !takes_another(MOST_VIEWS));
}
