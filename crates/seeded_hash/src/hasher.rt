// SipHash-1-3, by words of eight bytes.
ghost use Rattle.std.specs.Prelude.{◌≡◌, ◌+◌, ◌-◌, ◌/◌, ◌*◌, ◌^◌, ◌<◌, length, drop};
ghost use Rattle.std.specs.Int.{w64, from_le_bytes};
ghost use Rattle.seeded_hash.specs.SipHash as sip;

use std::hash::Hasher;

/// Hashes by SipHash-1-3 (Aumasson, Bernstein 2012), under the key that a `SeededHash` gives it.
///
/// One `write` and then `finish` give SipHash-1-3 of the bytes written. Each further `write` goes on from the state that the one
/// before it left: it absorbs its bytes as a message of its own, whose last word has their number modulo 256. Texts don't run into
/// each other so: std writes a byte 0xFF after each, which UTF-8 never has, and a word that begins with it is no text's.
#[derive(Clone, Copy)]
pub struct SeededHasher {
    v0: u64,
    v1: u64,
    v2: u64,
    v3: u64,
}

impl SeededHasher {
    #[tactic(auto, unfolding(crate::specs::SipHash::keyed))]
    pub(crate) fn keyed(k0: u64, k1: u64) -> Self
        ensures { result ≡ sip.keyed k0 k1 }
    {
        SeededHasher {
            v0: k0 ^ 0x736f_6d65_7073_6575,
            v1: k1 ^ 0x646f_7261_6e64_6f6d,
            v2: k0 ^ 0x6c79_6765_6e65_7261,
            v3: k1 ^ 0x7465_6462_7974_6573,
        }
    }

    #[inline]
    #[tactic(auto, unfolding(crate::specs::SipHash::round))]
    fn round(&mut self)
        ensures { self.new ≡ sip.round self.old }
    {
        self.v0 = self.v0.wrapping_add(self.v1);
        self.v2 = self.v2.wrapping_add(self.v3);
        self.v1 = self.v1.rotate_left(13) ^ self.v0;
        self.v3 = self.v3.rotate_left(16) ^ self.v2;
        self.v0 = self.v0.rotate_left(32);
        self.v2 = self.v2.wrapping_add(self.v1);
        self.v0 = self.v0.wrapping_add(self.v3);
        self.v1 = self.v1.rotate_left(17) ^ self.v2;
        self.v3 = self.v3.rotate_left(21) ^ self.v0;
        self.v2 = self.v2.rotate_left(32);
    }

    #[inline]
    #[tactic(auto, unfolding(crate::specs::SipHash::compress))]
    fn compress(&mut self, word: u64)
        ensures { self.new ≡ sip.compress self.old word }
    {
        self.v3 ^= word;
        self.round();
        self.v0 ^= word;
    }
}

// The number of fewer than eight bytes.
fn short_word(bytes: &[u8]) -> u64
    requires { length bytes.now < 8 }
    ensures value { result ≡ from_le_bytes w64 bytes.now }
    ensures small { result < 2 ^ 56 }
{
    match *bytes {
        [] => 0,
        [a] => u64::from_le_bytes([a, 0, 0, 0, 0, 0, 0, 0]),
        [a, b] => u64::from_le_bytes([a, b, 0, 0, 0, 0, 0, 0]),
        [a, b, c] => u64::from_le_bytes([a, b, c, 0, 0, 0, 0, 0]),
        [a, b, c, d] => u64::from_le_bytes([a, b, c, d, 0, 0, 0, 0]),
        [a, b, c, d, e] => u64::from_le_bytes([a, b, c, d, e, 0, 0, 0]),
        [a, b, c, d, e, f] => u64::from_le_bytes([a, b, c, d, e, f, 0, 0]),
        [a, b, c, d, e, f, g, ..] => u64::from_le_bytes([a, b, c, d, e, f, g, 0]),
    }
}

// The number of the last `count` of eight bytes, with no test of each.
fn end_of_word(bytes: &[u8; 8], count: usize) -> u64
    requires { count < 8 }
    ensures value { result ≡ from_le_bytes w64 (drop (8 - count) bytes.now) }
    ensures small { result < 2 ^ 56 }
{
    u64::from_le_bytes(*bytes) >> (8 * (7 - count)) >> 8
}

// The number of the fewer than eight bytes after the whole words.
fn left_over(bytes: &[u8]) -> u64
    ensures value { result ≡ from_le_bytes w64 (drop (length bytes.now / 8 * 8) bytes.now) }
    ensures small { result < 2 ^ 56 }
{
    match bytes.last_chunk::<8>() {
        Some(last) => end_of_word(last, bytes.len() % 8),
        None => short_word(bytes),
    }
}

impl Hasher for SeededHasher {
    ghost write = { sip.absorb };

    ghost finish = { sip.finish };

    #[tactic(auto, unfolding(crate::specs::SipHash::finish))]
    fn finish(&self) -> u64 {
        let mut last = *self;
        last.v2 ^= 0xff;
        last.round();
        last.round();
        last.round();
        last.v0 ^ last.v1 ^ last.v2 ^ last.v3
    }

    fn write_u8(&mut self, i: u8) {
        self.compress(i as u64 + (1 << 56));
    }

    fn write_u32(&mut self, i: u32) {
        self.compress(i as u64 + (4 << 56));
    }

    fn write_u64(&mut self, i: u64) {
        self.compress(i);
        self.compress(8 << 56);
    }

    fn write_usize(&mut self, i: usize) {
        self.write_u64(i as u64);
    }

    fn write(&mut self, bytes: &[u8]) {
        let (words, _) = bytes.as_chunks::<8>();
        for word in words {
            self.compress(u64::from_le_bytes(*word));
        }
        self.compress(left_over(bytes) + ((bytes.len() as u64) << 56));
    }
}
