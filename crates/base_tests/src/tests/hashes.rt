use seeded_hash::SeededHash;
use std::hash::{BuildHasher, Hasher};

fn hash_of(seed: u128, bytes: &[u8]) -> u64 {
    let mut hasher = SeededHash::new(seed).build_hasher();
    hasher.write(bytes);
    hasher.finish()
}

/// What Rust's own `DefaultHasher::new()`, which has the key 0, gives after one `write` of what stands before a space.
const UNDER_THE_KEY_0: &str = " d1fba762150c532c
abcdefg 6db12aae9070f506
abcdefgh 3f7b849c0b8e35ea
abcdefghijklmno 1fd27a29b0e9dc7a
abcdefghijklmnop 94f60d3d29e6a312";

fn has_hash(line: &str) -> bool {
    let Some((text, hash)) = line.split_once(' ') else {
        return false;
    };
    u64::from_str_radix(hash, 16) == Ok(hash_of(0, text.as_bytes()))
}

#[test]
fn hashes_under_the_key_0(rt: HostRuntime) {
    for line in UNDER_THE_KEY_0.lines() {
        assert!(rt; has_hash(line), "{line}");
    }
}

/// What CPython 3.11 gives as `hash(b'urn:lv2fx:level')`, modulo 2^64, with PYTHONHASHSEED=42. Its key is the first 16 bytes, the
/// lowest first, of x = 42, then x = (x * 214013 + 2531011) mod 2^32 for each byte, which is (x >> 16) mod 256.
#[test]
fn hashes_under_another_key(rt: HostRuntime) {
    let seed = 0xb920_bb9f_fe99_e9c1_dc50_4fd3_68cd_90af;
    assert_eq!(rt; hash_of(seed, b"urn:lv2fx:level"), 0x902f_6b60_72e0_c680);
}
