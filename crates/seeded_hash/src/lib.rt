//! Hashes that a seed decides, for tables of texts that strangers write.
#![tactic(auto)]

ghost use Rattle.std.specs.Prelude.{◌≡◌, ◌%◌, ◌/◌, ◌^◌};
ghost use Rattle.seeded_hash.specs.SipHash as sip;

mod hasher;

pub use hasher::SeededHasher;
use std::hash::BuildHasher;

/// Hashes by SipHash-1-3, whose key is a seed of 128 bits. Whoever doesn't know a random seed can't choose values whose hashes
/// agree.
#[derive(Clone, Copy)]
pub struct SeededHash {
    seeded: SeededHasher,
}

impl SeededHash {
    /// The hashes of a seed: its lower 64 bits are the key's first word.
    pub fn new(seed: u128) -> Self
        ensures { result.seeded ≡ sip.keyed (seed % 2 ^ 64) (seed / 2 ^ 64) }
    {
        SeededHash {
            seeded: SeededHasher::keyed((seed % (1 << 64)) as u64, (seed >> 64) as u64),
        }
    }
}

impl BuildHasher for SeededHash {
    type Hasher = SeededHasher;

    ghost build_hasher = { λ hashing. hashing.seeded };

    fn build_hasher(&self) -> SeededHasher {
        self.seeded
    }
}
