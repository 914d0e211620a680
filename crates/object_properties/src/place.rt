ghost use Rattle.std.specs.Prelude.{◌≡◌, ◌≤◌, ◌^◌, drop, take, slice_index};
ghost use Rattle.std.specs.Int.{w32, w64, cast_signed};
ghost use Rattle.atom_core.specs.Place.{number_at, wide_at, padded};

/// What stands after so many bytes: nothing where there are fewer.
pub fn after(bytes: &[u8], count: usize) -> &[u8]
    ensures { result.now ≡ drop count bytes.now }
{
    if count < bytes.len() {
        &bytes[count..]
    } else {
        &[]
    }
}

/// The first so many bytes: all where there are fewer.
pub(crate) fn front(bytes: &[u8], count: usize) -> &[u8]
    ensures { result.now ≡ take count bytes.now }
{
    if count < bytes.len() {
        &bytes[..count]
    } else {
        bytes
    }
}

/// A number of bytes up to the next multiple of 8.
pub(crate) fn padded(size: usize) -> usize
    requires { size ≤ 2 ^ 32 }
    ensures { result ≡ padded size }
{
    (size + 7) / 8 * 8
}

/// The byte at a place, 0 where there is none.
fn byte_at(bytes: &[u8], at: usize) -> u8
    ensures { result ≡ slice_index bytes.now at }
{
    if at < bytes.len() { bytes[at] } else { 0 }
}

/// The number in four bytes, the low byte first. Bytes that aren't there count as 0.
#[tactic(auto, unfolding(atom_core::specs::Place::number_at))]
pub fn u32_at(bytes: &[u8], at: usize) -> u32
    requires { at ≤ 2 ^ 32 }
    ensures { result ≡ number_at bytes.now at }
{
    u32::from_le_bytes([
        byte_at(bytes, at),
        byte_at(bytes, at + 1),
        byte_at(bytes, at + 2),
        byte_at(bytes, at + 3),
    ])
}

/// The signed number in four bytes.
#[tactic(auto, unfolding(atom_core::specs::Place::number_at))]
pub fn i32_at(bytes: &[u8], at: usize) -> i32
    requires { at ≤ 2 ^ 32 }
    ensures { result ≡ cast_signed w32 (number_at bytes.now at) }
{
    i32::from_le_bytes([
        byte_at(bytes, at),
        byte_at(bytes, at + 1),
        byte_at(bytes, at + 2),
        byte_at(bytes, at + 3),
    ])
}

/// The signed number in eight bytes.
#[tactic(auto, unfolding(atom_core::specs::Place::wide_at))]
pub fn i64_at(bytes: &[u8], at: usize) -> i64
    requires { at ≤ 2 ^ 32 }
    ensures { result ≡ cast_signed w64 (wide_at bytes.now at) }
{
    i64::from_le_bytes([
        byte_at(bytes, at),
        byte_at(bytes, at + 1),
        byte_at(bytes, at + 2),
        byte_at(bytes, at + 3),
        byte_at(bytes, at + 4),
        byte_at(bytes, at + 5),
        byte_at(bytes, at + 6),
        byte_at(bytes, at + 7),
    ])
}
