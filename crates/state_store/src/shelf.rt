ghost use Rattle.std.specs.Prelude.{◌≡◌, ◌≢◌, ℕ, [], Some, IfOk};
ghost use Rattle.state_store.specs.Properties.{held, with_property, is_mapped, are_flags, AreStorable};
ghost use Rattle.state_store.specs.Shelf.{status_of, value_of};
ghost use Rattle.state_store.specs.declared.prop.Prop.{Prop};
ghost use Rattle.state_store.specs.declared.status.TheConstants.{SUCCESS};

use crate::slots::{Slot, copy_rows, has_room, place_of, put};
use crate::{BAD_FLAGS, BAD_TYPE, MOST_BYTES, MOST_PROPERTIES, NO_SPACE, Props, SUCCESS};
use lv_base::NoMemory;
use std::alloc::Global;
use std::marker::Model;

/// Where a plug-in stores its state. It has all its room from the start, so that storing takes no memory. Contracts see the number of
/// URIs that had numbers when it was made, and the properties that it holds, in order of their keys.
#[derive(Drop)]
pub struct Shelf {
    mapped: u32,
    slots: Vec<Slot>,
    bytes: Vec<u8>,
}

impl Model for Shelf {
    ghost use Rattle.std.specs.Prelude.{◌≡◌, ◌≤◌, length, vec_capacity};
    ghost use Rattle.state_store.specs.Properties.{AreStorable};
    ghost use Rattle.state_store.specs.Shelf.{Shelved};
    ghost use Rattle.state_store.specs.Slots.{rows_of, size_of};
    ghost use Rattle.state_store.specs.declared.status.TheConstants.{MOST_PROPERTIES, MOST_BYTES};

    ghost Value = { Shelved };

    ghost view = { λ shelf. record { mapped = shelf.mapped; rows = rows_of shelf.slots.items shelf.bytes.items } };

    ghost invariant = { λ shelf. AreStorable shelf.mapped (rows_of shelf.slots.items shelf.bytes.items)
        × (size_of shelf.slots.items ≡ length shelf.bytes.items)
        × (MOST_PROPERTIES ≤ vec_capacity shelf.slots)
        × (MOST_BYTES ≤ vec_capacity shelf.bytes) };
}

// Whether a URI has this number.
fn is_mapped(mapped: u32, number: u32) -> bool
    ensures { result ≡ is_mapped mapped number }
{
    0 < number && number <= mapped
}

// Whether a value with these flags may be kept in a file.
fn are_flags(flags: u32) -> bool
    ensures { result ≡ are_flags flags }
{
    flags == 3 || flags == 7
}

impl Shelf {
    /// An empty shelf with room for `MOST_PROPERTIES` properties and `MOST_BYTES` bytes, where so many URIs have numbers.
    pub fn with_room(alloc: Global, mapped: u32) -> Result<Self, NoMemory>
        ensures { IfOk result (λ shelf. shelf ≡ record { mapped = mapped; rows = [] }) }
    {
        let slots = Vec::with_capacity(alloc, MOST_PROPERTIES)?;
        let bytes = Vec::with_capacity(alloc, MOST_BYTES)?;
        Ok(Shelf {
            mapped,
            slots,
            bytes,
        })
    }

    /// Stores a property, in place of a former one with its key, and answers an `LV2_State_Status`. It takes no memory.
    ///
    /// `BAD_TYPE` comes exactly where the key or the type is no URI's number; else `BAD_FLAGS` exactly where the flags aren't 3 or 7;
    /// else `NO_SPACE` exactly where there would be more properties or more bytes than there is room for, a former value of the key
    /// not counted. A refusal leaves all as before.
    pub fn store(&mut self, key: u32, kind: u32, flags: u32, bytes: &[u8]) -> u8
        ensures status { result ≡ status_of self.old key (value_of kind flags bytes.now) }
        ensures stored { result ≡ SUCCESS → self.new ≡ record self.old { rows = with_property self.old.rows key (value_of kind flags bytes.now) } }
        ensures refused { result ≢ SUCCESS → self.new ≡ self.old }
    {
        if !is_mapped(self.mapped, key) || !is_mapped(self.mapped, kind) {
            return BAD_TYPE;
        }
        if !are_flags(flags) {
            return BAD_FLAGS;
        }
        let place = place_of(self.slots.as_slice(), key);
        let slot = Slot {
            key,
            kind,
            flags,
            size: bytes.len(),
        };
        if !has_room(
            self.slots.as_slice(),
            self.bytes.as_slice(),
            place,
            slot,
            bytes,
        ) {
            return NO_SPACE;
        }
        put(&mut self.slots, &mut self.bytes, place, slot, bytes);
        SUCCESS
    }

    /// The properties that it holds. After a refusal the shelf is gone.
    pub fn finish(self) -> Result<Props, NoMemory>
        ensures props { IfOk result (λ props. props ≡ self.rows) }
        ensures storable { AreStorable self.mapped self.rows }
    {
        let alloc = *self.slots.allocator();
        let rows = copy_rows(alloc, self.slots.as_slice(), self.bytes.as_slice())?;
        Ok(Props::from_rows(rows))
    }

    /// A law, with nothing to find out: the key that is stored has its value, every other key what it had, and all that is on a shelf
    /// may be there.
    pub fn keeps_others(&self)
        ensures stored { (key : ℕ) (prop : Prop) → held (with_property self.now.rows key prop) key ≡ Some prop }
        ensures others { (key other : ℕ) (prop : Prop) → other ≢ key → held (with_property self.now.rows key prop) other ≡ held self.now.rows other }
        ensures storable { AreStorable self.now.mapped self.now.rows }
    {
        self.slots.len();
    }
}
