ghost use Rattle.std.specs.Prelude.{◌≡◌, All, None, IfOk};

use lv_base::NoMemory;
use std::alloc::Global;

// How many slots a table of what came lately has.
const SLOTS: usize = 512;

/// The slots of a table that holds nothing.
pub fn empty_slots<T: Drop>(alloc: Global) -> Result<Vec<Option<T>>, NoMemory>
    ensures { IfOk result (λ slots. All (λ slot. slot ≡ None) slots.items) }
{
    let mut slots = Vec::with_capacity(alloc, SLOTS)?;
    for _ in 0..SLOTS {
        slots.push(None)?;
    }
    Ok(slots)
}

/// The slot of a text. Texts differ mostly at their ends.
#[inline(always)]
pub fn slot_of(text: &str) -> usize {
    let bytes = text.as_bytes();
    let end = match bytes.split_last_chunk::<8>() {
        Some((_, end)) => u64::from_le_bytes(*end),
        None => bytes.iter().fold(0, |word, byte| word << 8 | *byte as u64),
    };
    (end.wrapping_mul(0x9e37_79b9_7f4a_7c15) >> 55) as usize
}
