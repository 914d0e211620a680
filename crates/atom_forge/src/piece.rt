ghost use Rattle.std.specs.Prelude.{◌≡◌, ◌≤◌, ◌<◌, ◌+◌, ◌^◌, ◌++◌, length, take, drop, replicate, vec_len, vec_capacity};
ghost use Rattle.atom_core.specs.Place.{padded};
ghost use Rattle.atom_core.specs.Spelling.{u32, framed};

/// A number of bytes up to the next multiple of 8.
pub fn padded(size: usize) -> usize
    requires { size < 2 ^ 33 }
    ensures { result ≡ padded size }
{
    (size + 7) / 8 * 8
}

/// Puts bytes after the others, where memory for them is there.
pub fn put(bytes: &mut Vec<u8>, more: &[u8])
    requires { vec_len bytes.old + length more.now ≤ vec_capacity bytes.old }
    ensures items { bytes.new.items ≡ bytes.old.items ++ more.now }
    ensures len { vec_len bytes.new ≡ vec_len bytes.old + length more.now }
    ensures capacity { vec_capacity bytes.old ≤ vec_capacity bytes.new }
{
    let _ = bytes.extend_from_slice(more);
}

/// Puts a number of four bytes.
#[tactic(auto, unfolding(atom_core::specs::Spelling::u32))]
pub fn put_number(bytes: &mut Vec<u8>, number: u32)
    requires { vec_len bytes.old + 4 ≤ vec_capacity bytes.old }
    ensures items { bytes.new.items ≡ bytes.old.items ++ u32 number }
    ensures len { vec_len bytes.new ≡ vec_len bytes.old + 4 }
    ensures capacity { vec_capacity bytes.old ≤ vec_capacity bytes.new }
{
    put(bytes, &number.to_le_bytes());
}

/// Puts some zeros, at most 8.
pub fn put_zeros(bytes: &mut Vec<u8>, count: usize)
    requires few { count ≤ 8 }
    requires room { vec_len bytes.old + count ≤ vec_capacity bytes.old }
    ensures items { bytes.new.items ≡ bytes.old.items ++ replicate count 0 }
    ensures len { vec_len bytes.new ≡ vec_len bytes.old + count }
    ensures capacity { vec_capacity bytes.old ≤ vec_capacity bytes.new }
{
    let zeros = [0; 8];
    put(bytes, &zeros[..count]);
}

/// Puts the header of an atom and its body, which is in two pieces.
pub fn put_atom(bytes: &mut Vec<u8>, kind: u32, body: &[u8], rest: &[u8])
    requires size { length body.now + length rest.now < 2 ^ 32 }
    requires room { vec_len bytes.old + 8 + length body.now + length rest.now ≤ vec_capacity bytes.old }
    ensures items { bytes.new.items ≡ bytes.old.items ++ framed kind (body.now ++ rest.now) }
    ensures len { vec_len bytes.new ≡ vec_len bytes.old + 8 + length body.now + length rest.now }
    ensures capacity { vec_capacity bytes.old ≤ vec_capacity bytes.new }
{
    put_number(bytes, (body.len() + rest.len()) as u32);
    put_number(bytes, kind);
    put(bytes, body);
    put(bytes, rest);
}

/// Writes a number over the four bytes at a place.
#[tactic(auto, unfolding(atom_core::specs::Spelling::u32))]
pub fn set_number(bytes: &mut Vec<u8>, at: usize, number: u32)
    requires { at + 4 ≤ vec_len bytes.old }
    ensures items { bytes.new.items ≡ take at bytes.old.items ++ (u32 number ++ drop (at + 4) bytes.old.items) }
    ensures len { vec_len bytes.new ≡ vec_len bytes.old }
    ensures capacity { vec_capacity bytes.new ≡ vec_capacity bytes.old }
{
    bytes[at..at + 4].copy_from_slice(&number.to_le_bytes());
}
