ghost use Rattle.std.specs.Prelude.{◌≡◌, ◌≤◌, ◌+◌, length};
ghost use Rattle.std.specs.Int.{w32, w64, cast_signed};
ghost use Rattle.atom_core.specs.Place.{number_at, wide_at};

/// The number in four bytes, the low byte first.
#[tactic(auto, unfolding(crate::specs::Place::number_at))]
pub fn u32_at(bytes: &[u8], at: usize) -> u32
    requires { at + 4 ≤ length bytes.now }
    ensures { result ≡ number_at bytes.now at }
{
    u32::from_le_bytes([bytes[at], bytes[at + 1], bytes[at + 2], bytes[at + 3]])
}

/// The signed number in four bytes.
#[tactic(auto, unfolding(crate::specs::Place::number_at))]
pub fn i32_at(bytes: &[u8], at: usize) -> i32
    requires { at + 4 ≤ length bytes.now }
    ensures { result ≡ cast_signed w32 (number_at bytes.now at) }
{
    i32::from_le_bytes([bytes[at], bytes[at + 1], bytes[at + 2], bytes[at + 3]])
}

/// The signed number in eight bytes.
#[tactic(auto, unfolding(crate::specs::Place::wide_at))]
pub fn i64_at(bytes: &[u8], at: usize) -> i64
    requires { at + 8 ≤ length bytes.now }
    ensures { result ≡ cast_signed w64 (wide_at bytes.now at) }
{
    i64::from_le_bytes([
        bytes[at],
        bytes[at + 1],
        bytes[at + 2],
        bytes[at + 3],
        bytes[at + 4],
        bytes[at + 5],
        bytes[at + 6],
        bytes[at + 7],
    ])
}
