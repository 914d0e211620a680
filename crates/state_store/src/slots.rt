ghost use Rattle.std.specs.Prelude.{◌≡◌, ◌+◌, ◌-◌, ◌<◌, ◌≤◌, ◌++◌, length, take, drop, vec_len, vec_capacity, unwrap_or, is_none, insert, true, if◌then◌else◌, ◌↔◌, ◌^◌, IsTrue, IfOk};
ghost use Rattle.state_store.specs.Properties.{with_property, fit, AreRising};
ghost use Rattle.state_store.specs.Shelf.{value_of};
ghost use Rattle.state_store.specs.Slots.{rows_of, size_of, place_of, with_slot, with_bytes};
ghost use Rattle.state_store.specs.declared.status.TheConstants.{MOST_PROPERTIES, MOST_BYTES};

use crate::{MOST_BYTES, MOST_PROPERTIES, Prop};
use lv_base::{Bytes, NoMemory};
use std::alloc::Global;

/// A property, whose bytes stand in a buffer after those of the slots before it.
#[derive(Clone, Copy)]
pub struct Slot {
    pub key: u32,
    pub kind: u32,
    pub flags: u32,
    pub size: usize,
}

/// Where a property has its slot and its bytes, or would have them.
#[derive(Clone, Copy)]
pub struct Place {
    pub index: usize,
    pub offset: usize,
    /// The size of the value that it takes the place of.
    pub former: Option<usize>,
}

/// The place of a key.
#[tactic(auto, using(crate::proofs::Places::place_start, crate::proofs::Places::place_later, crate::proofs::Places::place_here, crate::proofs::Places::place_end, crate::proofs::Places::size_later))]
pub(crate) fn place_of(slots: &[Slot], key: u32) -> Place
    requires { size_of slots.now < 2 ^ 64 }
    ensures { result ≡ place_of slots.now key }
{
    let mut offset = 0;
    for (index, slot) in slots.iter().enumerate() {
        if slot.key >= key {
            let former = if slot.key == key {
                Some(slot.size)
            } else {
                None
            };
            return Place {
                index,
                offset,
                former,
            };
        }
        offset += slot.size;
    }
    Place {
        index: slots.len(),
        offset,
        former: None,
    }
}

/// Whether there is room for a value at its place.
pub(crate) fn has_room(slots: &[Slot], bytes: &[u8], place: Place, slot: Slot, value: &[u8]) -> bool
    requires packed { size_of slots.now ≡ length bytes.now }
    requires rising { AreRising (rows_of slots.now bytes.now) }
    requires room { fit (rows_of slots.now bytes.now) ≡ true }
    requires place { place ≡ place_of slots.now slot.key }
    requires size { slot.size ≡ length value.now }
    ensures fits { result ≡ fit (with_property (rows_of slots.now bytes.now) slot.key (value_of slot.kind slot.flags value.now)) }
    ensures slots { IsTrue result → length slots.now + (if is_none place.former then 1 else 0) ≤ MOST_PROPERTIES }
    ensures bytes { IsTrue result → length bytes.now - unwrap_or place.former 0 + length value.now ≤ MOST_BYTES }
{
    are_within(slots.len(), bytes.len(), place, value.len())
}

// Whether there is room for a value of this size at a place, where so many slots and bytes are taken.
fn are_within(slots: usize, bytes: usize, place: Place, size: usize) -> bool
    requires slots { slots ≤ MOST_PROPERTIES }
    requires bytes { bytes ≤ MOST_BYTES }
    requires former { unwrap_or place.former 0 ≤ bytes }
    ensures { IsTrue result ↔ ((slots + (if is_none place.former then 1 else 0) ≤ MOST_PROPERTIES) × (bytes - unwrap_or place.former 0 + size ≤ MOST_BYTES)) }
{
    let more = usize::from(place.former.is_none());
    let kept = bytes - place.former.unwrap_or(0);
    slots + more <= MOST_PROPERTIES && size <= MOST_BYTES - kept
}

/// Stores a value at its place. There is room for it.
pub(crate) fn put(
    slots: &mut Vec<Slot>,
    bytes: &mut Vec<u8>,
    place: Place,
    slot: Slot,
    value: &[u8],
)
    requires packed { size_of slots.old.items ≡ length bytes.old.items }
    requires rising { AreRising (rows_of slots.old.items bytes.old.items) }
    requires place { place ≡ place_of slots.old.items slot.key }
    requires size { slot.size ≡ length value.now }
    requires slot_room { length slots.old.items + (if is_none place.former then 1 else 0) ≤ vec_capacity slots.old }
    requires byte_room { length bytes.old.items - unwrap_or place.former 0 + length value.now ≤ vec_capacity bytes.old }
    ensures rows { rows_of slots.new.items bytes.new.items ≡ with_property (rows_of slots.old.items bytes.old.items) slot.key (value_of slot.kind slot.flags value.now) }
    ensures packed { size_of slots.new.items ≡ length bytes.new.items }
    ensures slots { vec_capacity slots.old ≤ vec_capacity slots.new }
    ensures bytes { vec_capacity bytes.old ≤ vec_capacity bytes.new }
{
    put_slot(slots, place, slot);
    put_bytes(bytes, place, value);
}

fn put_slot(slots: &mut Vec<Slot>, place: Place, slot: Slot)
    requires place { place ≡ place_of slots.old.items slot.key }
    requires room { length slots.old.items + (if is_none place.former then 1 else 0) ≤ vec_capacity slots.old }
    ensures slots { slots.new.items ≡ with_slot slots.old.items slot }
    ensures capacity { vec_capacity slots.old ≤ vec_capacity slots.new }
{
    match place.former {
        Some(_) => slots[place.index] = slot,
        None => insert(slots, place.index, slot),
    }
}

fn insert(slots: &mut Vec<Slot>, index: usize, slot: Slot)
    requires within { index ≤ vec_len slots.old }
    requires room { vec_len slots.old < vec_capacity slots.old }
    ensures slots { slots.new.items ≡ insert slots.old.items index slot }
    ensures capacity { vec_capacity slots.old ≤ vec_capacity slots.new }
{
    let _ = slots.insert(index, slot);
}

// Puts the bytes of a value at a place, for those of the former one. The buffer is turned until the place is its end, and then on until
// it begins where it did.
fn put_bytes(bytes: &mut Vec<u8>, place: Place, value: &[u8])
    requires within { place.offset + unwrap_or place.former 0 ≤ length bytes.old.items }
    requires room { length bytes.old.items - unwrap_or place.former 0 + length value.now ≤ vec_capacity bytes.old }
    ensures bytes { bytes.new.items ≡ with_bytes bytes.old.items place value.now }
    ensures capacity { vec_capacity bytes.old ≤ vec_capacity bytes.new }
{
    let former = place.former.unwrap_or(0);
    let behind = bytes.len() - place.offset - former;
    bytes.rotate_left(place.offset + former);
    bytes.truncate(behind + place.offset);
    append(bytes, value);
    bytes.rotate_left(behind);
}

fn append(bytes: &mut Vec<u8>, value: &[u8])
    requires { vec_len bytes.old + length value.now ≤ vec_capacity bytes.old }
    ensures bytes { bytes.new.items ≡ bytes.old.items ++ value.now }
    ensures capacity { vec_capacity bytes.old ≤ vec_capacity bytes.new }
{
    let _ = bytes.extend_from_slice(value);
}

/// Copies each property out of its slot.
pub(crate) fn copy_rows(
    alloc: Global,
    slots: &[Slot],
    bytes: &[u8],
) -> Result<Vec<(u32, Prop)>, NoMemory>
    requires { size_of slots.now ≤ length bytes.now }
    ensures { IfOk result (λ rows. rows.items ≡ rows_of slots.now bytes.now) }
{
    let mut rows = Vec::with_capacity(alloc, slots.len())?;
    let mut left = bytes;
    for slot in slots {
        let (value, rest) = left.split_at(slot.size);
        let prop = Prop {
            kind: slot.kind,
            flags: slot.flags,
            bytes: Bytes::from_slice(alloc, value)?,
        };
        rows.push((slot.key, prop))?;
        left = rest;
    }
    Ok(rows)
}
