ghost use Rattle.std.specs.Prelude.{◌≡◌, ◌≤◌, [], ◌∷◌, pos, length, map, replicate, All};
ghost use Rattle.lv_base.specs.Number.{mix_of};
ghost use Rattle.plug_api.specs.Sound.{silence};
ghost use Rattle.session_play.specs.Signals.{mixed};
ghost use Rattle.sound_block.specs.Block.{sums_after};
ghost use Rattle.block_signals.specs.Mixing.{heard, IsHeard};

use crate::outlets::Outlets;
use crate::source::Source;
use lv_base::Sample;
use sound_block::{add, clear, finish};

/// Puts the mix of what is heard at some sources: in each frame the exact sum, clamped once. The sums are room to work in.
pub(crate) fn mix(out: &mut [Sample], sums: &mut [i64], sources: &[Source], outlets: &Outlets)
    requires room { length sums.old ≡ length out.old }
    requires few { length sources.now ≤ 256 }
    requires heard { All (IsHeard (length out.old) outlets.now) sources.now }
    ensures mix { out.new ≡ mixed (length out.old) (map (heard outlets.now) sources.now) }
    ensures room { length sums.new ≡ length sums.old }
{
    match sources {
        [] => hush(out),
        [source] => pass(out, outlets.heard(*source)),
        _ => {
            sum_up(sums, sources, outlets);
            finish(sums, out);
        }
    }
}

/// Nothing is heard.
fn hush(out: &mut [Sample])
    ensures { out.new ≡ silence (length out.old) }
{
    out.fill(Sample(0));
}

/// The mix of one signal is the signal.
fn pass(out: &mut [Sample], signal: &[Sample])
    requires { length signal.now ≡ length out.old }
    ensures { out.new ≡ mixed (length out.old) (signal.now ∷ []) }
{
    for frame in 0..out.len() {
        out[frame] = alone(signal[frame]);
    }
}

fn alone(sample: Sample) -> Sample
    ensures { result ≡ mix_of (sample ∷ []) }
{
    sample
}

/// Adds up what is heard at the sources.
fn sum_up(sums: &mut [i64], sources: &[Source], outlets: &Outlets)
    requires few { length sources.now ≤ 256 }
    requires heard { All (IsHeard (length sums.old) outlets.now) sources.now }
    ensures { sums.new ≡ sums_after (replicate (length sums.old) (pos 0)) (map (heard outlets.now) sources.now) }
{
    clear(sums);
    for source in sources {
        add(sums, outlets.heard(*source));
    }
}
