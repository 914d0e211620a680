use atom_core::{AtomFault, check};

/// A sequence with one event at frame 0: a patch:Set of a property to a Fixed of 0.25.
pub const ROW: [u8; 88] = [
    0x50, 0x00, 0x00, 0x00, 0x0A, 0x00, 0x00, 0x00, 0x00, 0x00, 0x00, 0x00, 0x00, 0x00, 0x00, 0x00,
    0x00, 0x00, 0x00, 0x00, 0x00, 0x00, 0x00, 0x00, 0x38, 0x00, 0x00, 0x00, 0x09, 0x00, 0x00, 0x00,
    0x00, 0x00, 0x00, 0x00, 0x10, 0x00, 0x00, 0x00, 0x12, 0x00, 0x00, 0x00, 0x00, 0x00, 0x00, 0x00,
    0x04, 0x00, 0x00, 0x00, 0x04, 0x00, 0x00, 0x00, 0x1A, 0x00, 0x00, 0x00, 0x00, 0x00, 0x00, 0x00,
    0x13, 0x00, 0x00, 0x00, 0x00, 0x00, 0x00, 0x00, 0x08, 0x00, 0x00, 0x00, 0x0E, 0x00, 0x00, 0x00,
    0x00, 0x00, 0x40, 0x00, 0x00, 0x00, 0x00, 0x00,
];

/// Which answer ROW has with one of its bytes set to 255, a line for each byte.
const ANSWERS: &str = "short
short
short
short
ok
ok
ok
ok
pad 8
pad 9
pad 10
pad 11
pad 12
pad 13
pad 14
pad 15
ok
ok
ok
ok
ok
ok
ok
ok
size 24
size 24
size 24
size 24
ok
ok
ok
ok
ok
ok
ok
ok
ok
ok
ok
ok
ok
ok
ok
ok
ok
ok
ok
ok
size 48
size 48
size 48
size 48
ok
ok
ok
ok
ok
ok
ok
ok
pad 60
pad 61
pad 62
pad 63
ok
ok
ok
ok
ok
ok
ok
ok
size 72
size 72
size 72
size 72
ok
ok
ok
ok
ok
ok
ok
ok
ok
ok
ok
ok
";

fn place(word: Option<&str>) -> usize {
    word.and_then(|digits| digits.parse::<usize>().ok())
        .unwrap_or(usize::MAX)
}

/// The answer that a line names.
fn wanted(line: &str) -> Result<(), AtomFault> {
    let mut words = line.split(' ');
    let word = words.next();
    let at = place(words.next());
    match word {
        Some("ok") => Ok(()),
        Some("size") => Err(AtomFault::BadSize(at)),
        Some("text") => Err(AtomFault::BadText(at)),
        Some("pad") => Err(AtomFault::BadPad(at)),
        Some("depth") => Err(AtomFault::Depth),
        _ => Err(AtomFault::Short),
    }
}

#[test]
fn fronts_are_short(rt: HostRuntime) {
    for (length, _) in ROW.iter().enumerate() {
        assert_eq!(rt; check(&ROW[..length]), Err(AtomFault::Short), "{length}");
    }
    assert_eq!(rt; check(&ROW), Ok(()));
}

#[test]
fn each_byte_set(rt: HostRuntime) {
    for (place, line) in ANSWERS.lines().enumerate() {
        let mut bytes = ROW;
        if let Some(byte) = bytes.get_mut(place) {
            *byte = 255;
        }
        assert_eq!(rt; check(&bytes), wanted(line), "{place}");
    }
}

#[test]
fn padding_is_zero(rt: HostRuntime) {
    let mut bytes = ROW;
    bytes[60] = 1;
    assert_eq!(rt; check(&bytes), Err(AtomFault::BadPad(60)));
}
