ghost use Rattle.std.specs.Prelude.{◌≡◌, ◌≤◌, ◌<◌, ◌+ℤ◌, ◌≤ℤ◌, ◌-ℤ◌, ℕ, ℤ, pos, neg_ℤ, [], ◌∷◌, length, map, slice_index_or, All, IfOk, EachIndex};
ghost use Rattle.lv_base.specs.Number.{clamped};
ghost use Rattle.session_script.specs.declared.session.CableLine.{CableLine};
ghost use Rattle.audio_api.specs.Outputs.{block_at};
ghost use Rattle.audio_api.specs.Sound.{AreWhole};
ghost use Rattle.replay_core.specs.Each.{each};
ghost use Rattle.replay_core.specs.Signals.{signal_at, sample_at, sources_of, mixed};
ghost use Rattle.replay_core.specs.Mixer.{number_at, sum_at, IsNear};

use audio_api::Outs;
use lv_base::{NoMemory, Sample};
use session_script::Session;
use std::alloc::Global;
use std::marker::Model;

/// Adds signals up, exactly, and clamps once. Contracts see the samples of the last mix.
#[derive(Debug, Drop)]
pub(crate) struct Mixer {
    sums: Vec<i64>,
    samples: Vec<Sample>,
}

impl Model for Mixer {
    ghost use Rattle.std.specs.Prelude.{◌≡◌, List, vec_len};
    ghost use Rattle.lv_base.specs.declared.number.Sample.{Sample};

    ghost Value = { List Sample };

    ghost view = { λ mixer. mixer.samples.items };

    ghost invariant = { λ mixer. vec_len mixer.sums ≡ vec_len mixer.samples };
}

impl Mixer {
    /// Room for the mix of so many frames.
    pub fn new(alloc: Global, frames: u32) -> Result<Self, NoMemory>
        ensures { IfOk result (λ mixer. length mixer ≡ frames) }
    {
        let sums = Vec::from_elem(alloc, 0, frames as usize)?;
        let samples = Vec::from_elem(alloc, Sample(0), frames as usize)?;
        Ok(Mixer { sums, samples })
    }

    /// Mixes the signals of the cables that lead to an instance.
    pub fn mix(&mut self, session: &Session, outs: &Outs, inst: u32)
        requires few { length session.now.cables ≤ 256 }
        requires there { All (λ (cable : CableLine). cable.source < length outs.now.blocks) session.now.cables }
        requires whole { AreWhole (length self.old) outs.now.blocks }
        ensures { self.new
            ≡ mixed (length self.old) (map (signal_at outs.now.blocks) (sources_of session.now inst)) }
    {
        mix_into(
            self.samples.as_mut_slice(),
            self.sums.as_mut_slice(),
            session,
            outs,
            inst,
        );
    }

    pub fn as_slice(&self) -> &[Sample]
        ensures { result.now ≡ self.now }
    {
        self.samples.as_slice()
    }
}

/// Puts the mix of the signals of the cables that lead to an instance. The sums are room to work in.
fn mix_into(samples: &mut [Sample], sums: &mut [i64], session: &Session, outs: &Outs, inst: u32)
    requires room { length sums.old ≡ length samples.old }
    requires few { length session.now.cables ≤ 256 }
    requires there { All (λ (cable : CableLine). cable.source < length outs.now.blocks) session.now.cables }
    requires whole { AreWhole (length samples.old) outs.now.blocks }
    ensures { samples.new
        ≡ mixed (length samples.old) (map (signal_at outs.now.blocks) (sources_of session.now inst)) }
{
    sums.fill(0);
    sum_up(sums, session, outs, inst);
    clamp_all(sums, samples);
}

/// Puts, for each frame, the exact sum of the signals of the cables that lead to an instance.
fn sum_up(sums: &mut [i64], session: &Session, outs: &Outs, inst: u32)
    requires few { length session.now.cables ≤ 256 }
    requires there { All (λ (cable : CableLine). cable.source < length outs.now.blocks) session.now.cables }
    requires whole { AreWhole (length sums.old) outs.now.blocks }
    requires nought { EachIndex sums.old (λ k. number_at sums.old k ≡ pos 0) }
    ensures { EachIndex sums.new
        (λ k. number_at sums.new k ≡ sum_at (map (signal_at outs.now.blocks) (sources_of session.now inst)) k) }
{
    for cable in session.cables.as_slice() {
        if cable.target == inst {
            add(sums, outs.block(cable.source));
        }
    }
}

/// Adds a signal to sums that are far from the ends of their type.
fn add(sums: &mut [i64], signal: &[Sample])
    requires whole { length signal.now ≡ length sums.old }
    requires small { EachIndex sums.old (λ k. IsNear 1000000000000 (number_at sums.old k)) }
    ensures sums { EachIndex sums.new
        (λ k. number_at sums.new k ≡ number_at sums.old k +ℤ (sample_at signal.now k).0) }
    ensures samples { EachIndex sums.new (λ k. IsNear 2147483648 (sample_at signal.now k).0) }
{
    for frame in 0..sums.len() {
        sums[frame] += widened(signal[frame]);
    }
}

/// The number of a sample, in a type with room for sums.
fn widened(sample: Sample) -> i64
    ensures value { result ≡ sample.0 }
    ensures near { IsNear 2147483648 result }
{
    i64::from(sample.0)
}

/// The samples are the sums, each clamped.
fn clamp_all(sums: &[i64], samples: &mut [Sample])
    requires { length sums.now ≡ length samples.old }
    ensures { samples.new ≡ each (length sums.now) (λ k. clamped (number_at sums.now k) ∷ []) }
{
    for frame in 0..sums.len() {
        samples[frame] = clamp(sums[frame]);
    }
}

/// The sample nearest to a sum.
fn clamp(sum: i64) -> Sample
    ensures { result ≡ clamped sum }
{
    Sample(sum.clamp(i64::from(i32::MIN), i64::from(i32::MAX)) as i32)
}
