ghost use Rattle.std.specs.Prelude.{◌≡◌, ℕ, ◌+◌, pos, length, map, replicate, All};
ghost use Rattle.lv_base.specs.Number.{clamped};
ghost use Rattle.sound_block.specs.Block.{added, IsSum, most_signals};

use lv_base::{Fixed, Sample, to_sample};

/// Begins a sum of signals: of none, it is 0 in each frame.
pub fn clear(acc: &mut [i64])
    ensures sums { acc.new ≡ replicate (length acc.old) (pos 0) }
    ensures count { All (IsSum 0) acc.new }
{
    acc.fill(0);
}

/// Adds a signal, exactly. At most 65,535 signals may have been added before.
pub fn add(acc: &mut [i64], x: &[Sample])
    requires whole { length x.now ≡ length acc.old }
    requires few { All (IsSum most_signals) acc.old }
    ensures sums { acc.new ≡ added acc.old x.now }
    ensures count { (n : ℕ) → All (IsSum n) acc.old → All (IsSum (n + 1)) acc.new }
{
    for frame in 0..acc.len() {
        acc[frame] += widened(x[frame]);
    }
}

/// The signal that the sums are: each is clamped, once.
pub fn finish(acc: &[i64], out: &mut [Sample])
    requires { length out.old ≡ length acc.now }
    ensures { out.new ≡ map clamped acc.now }
{
    for frame in 0..acc.len() {
        out[frame] = to_sample(Fixed(acc[frame]));
    }
}

// The number of a sample, in a type with room for sums.
fn widened(sample: Sample) -> i64
    ensures value { result ≡ sample.0 }
    ensures one { IsSum 1 result }
{
    i64::from(sample.0)
}
