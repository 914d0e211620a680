ghost use Rattle.std.specs.Prelude.{◌≡◌, ◌≤◌, length, map, take, IfSome};
ghost use Rattle.lv_base.specs.Number.{gained};

use lv_base::{Fixed, Sample, gain, to_sample};

/// A signal times a factor: each sample exact, rounded down to a part, then clamped.
pub fn gain_into(x: &[Sample], g: Fixed, out: &mut [Sample])
    requires { length out.old ≡ length x.now }
    ensures { out.new ≡ map (λ sample. gained sample g) x.now }
{
    // A factor below 128 makes products of 64 bits.
    match i32::try_from(g.0) {
        Ok(factor) => gain_by_small(x, factor, out),
        Err(_) => gain_by_any(x, g, out),
    }
}

fn gain_by_small(x: &[Sample], factor: i32, out: &mut [Sample])
    requires { length out.old ≡ length x.now }
    ensures { out.new ≡ map (λ sample. gained sample (record { 0 = factor })) x.now }
{
    let mut done = 0;
    while done < x.len() {
        done = gain_within(x, factor, out, done);
        if done < x.len() {
            out[done] = gain_once(x[done], factor);
            done += 1;
        }
    }
}

// Goes on from a frame to the first whose product is beyond the greatest or the least sample: a loop that doesn't clamp is faster.
fn gain_within(x: &[Sample], factor: i32, out: &mut [Sample], from: usize) -> usize
    requires whole { length out.old ≡ length x.now }
    requires within { from ≤ length x.now }
    requires before { take from out.old ≡ map (λ sample. gained sample (record { 0 = factor })) (take from x.now) }
    ensures more { from ≤ result }
    ensures end { result ≤ length x.now }
    ensures samples { take result out.new ≡ map (λ sample. gained sample (record { 0 = factor })) (take result x.now) }
{
    for frame in from..x.len() {
        match product_within(x[frame], factor) {
            Some(sample) => out[frame] = sample,
            None => return frame,
        }
    }
    x.len()
}

// A sample times a factor, where that is a sample.
fn product_within(sample: Sample, factor: i32) -> Option<Sample>
    ensures { IfSome result (λ product. product ≡ gained sample (record { 0 = factor })) }
{
    let product = i64::from(sample.0) * i64::from(factor);
    i32::try_from(product >> 24).ok().map(Sample)
}

fn gain_by_any(x: &[Sample], g: Fixed, out: &mut [Sample])
    requires { length out.old ≡ length x.now }
    ensures { out.new ≡ map (λ sample. gained sample g) x.now }
{
    for frame in 0..x.len() {
        out[frame] = gain(x[frame], g);
    }
}

fn gain_once(sample: Sample, factor: i32) -> Sample
    ensures { result ≡ gained sample (record { 0 = factor }) }
{
    let product = i64::from(sample.0) * i64::from(factor);
    to_sample(Fixed(product >> 24))
}
