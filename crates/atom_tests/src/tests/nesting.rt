use atom_core::{AtomFault, check};

/// Tuples within each other: each holds the next, and the last holds nothing. The first is the last's 17th container.
fn nested() -> [u8; 144] {
    let mut bytes = [0; 144];
    for (level, header) in bytes.chunks_exact_mut(8).enumerate() {
        header[0] = 136_usize.saturating_sub(8 * level) as u8;
        header[4] = 8;
    }
    bytes
}

#[test]
fn sixteen_containers(rt: HostRuntime) {
    let bytes = nested();
    assert_eq!(rt; check(&bytes[8..]), Ok(()));
    assert_eq!(rt; check(&bytes), Err(AtomFault::Depth));
}
