use lv_base::{NumFault, parse_decimal};

/// Texts of numbers, and their parts of 2^-24. 549755813887.999999970197677612 and -549755813888.000000029802322387 are the
/// greatest and the least that fit. 2^-25 is 0.0000000298023223876953125: it would be rounded away from zero but for its 19th digit
/// and those after it.
const NUMBERS: &str = "\
0.5 8388608
-90.0 -1509949440
1e-6 17
.5E1 83886080
3 50331648
1.e1 167772160
+.5 8388608
-0 0
00012.5E+1 2097152000
1e-99999999999 0
0e99999999999 0
549755813887.999999970197677612 9223372036854775807
-549755813888.000000029802322387 -9223372036854775808
-549755813888 -9223372036854775808
0.0000000298023223876953125 0
0.000000029802322388 1
-0.000000029802322388 -1
549755813887.9999999701976776129 9223372036854775807";

/// Whether a line's first word has as many parts as its second says.
fn has_parts(line: &str) -> bool {
    let Some((text, parts)) = line.split_once(' ') else {
        return false;
    };
    match (parse_decimal(text.as_bytes()), parts.parse::<i64>()) {
        (Ok(number), Ok(parts)) => number.0 == parts,
        _ => false,
    }
}

#[test]
fn numbers(rt: HostRuntime) {
    for line in NUMBERS.lines() {
        assert!(rt; has_parts(line), "{line}");
    }
}

/// Texts of no number, one between each two of these marks.
const NO_NUMBERS: &str = "|3.|.|+|e5|1e|1e+|.e1|--1|1.2.3|1e5e5|1e1.5| 1|1 ";

#[test]
fn no_numbers(rt: HostRuntime) {
    for text in NO_NUMBERS.split('|') {
        let read = parse_decimal(text.as_bytes());
        assert!(rt; matches!(read, Err(NumFault::NotNumber)), "{text}");
    }
}

/// Numbers that don't fit.
const TOO_GREAT: &str = "\
549755813888
1e99999999999
549755813887.999999970197677613
-549755813888.000000029802322388";

#[test]
fn numbers_out_of_range(rt: HostRuntime) {
    for text in TOO_GREAT.lines() {
        let read = parse_decimal(text.as_bytes());
        assert!(rt; matches!(read, Err(NumFault::Range)), "{text}");
    }
}
