use lv_base::{Fixed, Sample};
use sound_block::{add, clear, finish, gain_into, to_pcm};

/// 100, 100 and -100 in parts of 2^-24: the sum of the first two is beyond the greatest sample, the sum of all isn't.
const HUNDRED: i32 = 1_677_721_600;

#[test]
fn a_sum_is_clamped_once(rt: HostRuntime) {
    let high = [Sample(HUNDRED), Sample(HUNDRED), Sample(-HUNDRED)];
    let low = [Sample(-HUNDRED), Sample(HUNDRED), Sample(-HUNDRED)];
    let mut sums = [7i64; 3];
    let mut out = [Sample(7); 3];
    clear(&mut sums);
    add(&mut sums, &high);
    add(&mut sums, &high);
    add(&mut sums, &low);
    finish(&sums, &mut out);
    assert!(rt; out[0].0 == HUNDRED);
    assert!(rt; out[1].0 == i32::MAX);
    assert!(rt; out[2].0 == i32::MIN);
}

/// A gain of a half, one of -1, and one of 256, whose factor has more than 32 bits.
#[test]
fn a_gain_is_rounded_down(rt: HostRuntime) {
    let signal = [Sample(HUNDRED), Sample(-1), Sample(3)];
    let mut out = [Sample(0); 3];
    gain_into(&signal, Fixed(1 << 23), &mut out);
    assert!(rt; (out[0].0, out[1].0, out[2].0) == (838_860_800, -1, 1));
    gain_into(&signal, Fixed(-(1 << 24)), &mut out);
    assert!(rt; (out[0].0, out[1].0, out[2].0) == (-HUNDRED, 1, -3));
    gain_into(&signal, Fixed(1 << 32), &mut out);
    assert!(rt; (out[0].0, out[1].0, out[2].0) == (i32::MAX, -256, 768));
}

/// A half, full scale and beyond both ends.
#[test]
fn pcm_has_the_low_byte_first(rt: HostRuntime) {
    let signal = [Sample(1 << 23), Sample(1 << 24), Sample(i32::MIN)];
    let mut out = [9u8; 6];
    to_pcm(&signal, &mut out);
    assert!(rt; out == [0x00, 0x40, 0xFF, 0x7F, 0x00, 0x80]);
}
