ghost use Rattle.std.specs.Prelude.{◌≡◌, ◌≤◌, ◌^◌, length};
ghost use Rattle.std.specs.Int.{w16, w32, saturate_signed, int_shr};
ghost use Rattle.lv_base.specs.Number.{sample_of, gained, mix_of, pcm_of};

/// A control value: a count of 2^-24 parts, so 1.0 is `1 << 24`.
#[derive(Clone, Copy, Debug, PartialEq, Eq)]
pub struct Fixed(pub i64);

/// A sample of audio: a count of 2^-24 parts. Full scale, 1.0, is `1 << 24`, and there is headroom up to 128.
#[derive(Clone, Copy, Debug, PartialEq, Eq)]
pub struct Sample(pub i32);

/// The sample nearest to a control value.
pub fn to_sample(value: Fixed) -> Sample
    ensures { result ≡ sample_of value }
{
    Sample(nearest_i32(value.0))
}

/// A sample times a factor: exact, rounded down to a part, then clamped.
pub fn gain(sample: Sample, factor: Fixed) -> Sample
    ensures { result ≡ gained sample factor }
{
    let product = i128::from(sample.0) * i128::from(factor.0);
    Sample(nearest_of_wide(product >> 24))
}

/// The exact sum of the parts, clamped once.
pub fn mix(parts: &[Sample]) -> Sample
    requires { length parts.now ≤ 65536 }
    ensures { result ≡ mix_of parts.now }
{
    let mut sum = 0i64;
    for part in parts {
        sum += i64::from(part.0);
    }
    Sample(nearest_i32(sum))
}

/// The sample in 16 bits, as PCM has it: 1.0 is just above the greatest.
pub fn pcm16(sample: Sample) -> i16
    ensures { result ≡ pcm_of sample }
{
    (sample.0 >> 9).clamp(i32::from(i16::MIN), i32::from(i16::MAX)) as i16
}

fn nearest_i32(parts: i64) -> i32
    ensures { result ≡ saturate_signed w32 parts }
{
    parts.clamp(i64::from(i32::MIN), i64::from(i32::MAX)) as i32
}

fn nearest_of_wide(parts: i128) -> i32
    ensures { result ≡ saturate_signed w32 parts }
{
    parts.clamp(i128::from(i32::MIN), i128::from(i32::MAX)) as i32
}
