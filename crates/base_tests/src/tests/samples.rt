use lv_base::{Fixed, Sample, gain, mix, pcm16, to_sample};

/// Two hundreds less one, a 128th of it, and this in 16 bits.
#[test]
fn sums_and_products(rt: HostRuntime) {
    let hundred = to_sample(Fixed(100 << 24));
    let sum = mix(&[hundred, hundred, Sample(-(100 << 24))]);
    let quiet = gain(sum, Fixed(131072));
    assert!(rt; sum.0 == 1677721600 && quiet.0 == 13107200);
    assert!(rt; pcm16(quiet).to_le_bytes() == [0, 0x64]);
}

#[test]
fn shifts_round_down_below_0_too(rt: HostRuntime) {
    assert!(rt; gain(Sample(-1), Fixed(1)).0 == -1 && pcm16(Sample(-1)) == -1);
}

#[test]
fn pcm_is_clamped(rt: HostRuntime) {
    let low = to_sample(Fixed(-16777216 * 200));
    assert!(rt; pcm16(Sample(16777216)) == 32767 && pcm16(low) == -32768);
}
