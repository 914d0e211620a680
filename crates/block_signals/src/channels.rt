ghost use Rattle.std.specs.Prelude.{◌≡◌, ℕ, ◌+◌, ◌*◌, ◌≤◌, ◌++◌, List, length, map, take, flat_map, All, IfOk};
ghost use Rattle.std.specs.List.{range_with_len};
ghost use Rattle.graph_order.specs.Setup.{IsReady};
ghost use Rattle.graph_order.specs.declared.setup.Setup.{Setup};
ghost use Rattle.plug_api.specs.Sound.{silent};
ghost use Rattle.play_outcome.specs.Pcm.{sample_bytes, frame_bytes};
ghost use Rattle.std.specs.Prelude.{slice_index_or};
ghost use Rattle.block_signals.specs.Board.{Board};
ghost use Rattle.block_signals.specs.Channels.{channel_of, AreChannels, channel_heard, IsOpen, block_given};
ghost use Rattle.block_signals.specs.Outlets.{ShowsOutputs};

use crate::outlets::Outlets;
use crate::source::{Source, source_of};
use graph_order::Setup;
use lv_base::{Items, NoMemory, Sample, pcm16};
use plugin_decl::PortKind;
use std::alloc::Global;

/// The channels of a session: where each is heard.
#[derive(Drop)]
pub struct Channels {
    pub(crate) each: Items<Option<Source>>,
    pub(crate) frames: u32,
}

impl Channels {
    /// The channels of a setup.
    pub fn new(alloc: Global, setup: &Setup) -> Result<Self, NoMemory>
        requires { IsReady setup.now }
        ensures { IfOk result (AreChannels setup.now) }
    {
        let each = sources(alloc, setup)?;
        Ok(Channels {
            each,
            frames: setup.session.block,
        })
    }

    /// Puts the PCM of the block at hand: 16 bits a sample, the low byte first, frame by frame, the channels side by side. There is room for
    /// exactly this.
    pub fn put(&self, outlets: &Outlets, out: &mut [u8])
        requires known { (setup : Setup) × (board : Board) × IsReady setup × ShowsOutputs setup board outlets.now × AreChannels setup self.now }
        requires room { length out.old ≡ 2 * length self.now.each * self.now.frames }
        ensures { (setup : Setup) (board : Board) → IsReady setup → ShowsOutputs setup board outlets.now → AreChannels setup self.now
            → out.new ≡ block_given setup board }
    {
        put_frames(out, self.each.as_slice(), self.frames as usize, outlets);
    }
}

fn sources(alloc: Global, setup: &Setup) -> Result<Items<Option<Source>>, NoMemory>
    requires { IsReady setup.now }
    ensures { IfOk result (λ each. each ≡ map (channel_of setup.now) setup.now.session.outs) }
{
    let mut each = Items::new(alloc);
    for out in setup.session.outs.as_slice() {
        each.push(source_of(setup, PortKind::Audio, out.inst, &out.symbol, false))?;
    }
    Ok(each)
}

fn put_frames(out: &mut [u8], channels: &[Option<Source>], frames: usize, outlets: &Outlets)
    requires heard { All (IsOpen frames outlets.now) channels.now }
    requires room { length out.old ≡ 2 * length channels.now * frames }
    ensures { out.new ≡ flat_map (frame_bytes (map (channel_heard outlets.now) channels.now)) (range_with_len 0 frames) }
{
    let mut at = 0;
    for frame in 0..frames {
        put_frame(out, at, channels, frames, frame, outlets);
        at += 2 * channels.len();
    }
}

/// Puts one frame from a place on.
fn put_frame(
    out: &mut [u8],
    from: usize,
    channels: &[Option<Source>],
    frames: usize,
    frame: usize,
    outlets: &Outlets,
)
    requires heard { All (IsOpen frames outlets.now) channels.now }
    requires room { from + 2 * length channels.now ≤ length out.old }
    ensures { take (from + 2 * length channels.now) out.new ≡ take from out.old ++ frame_bytes (map (channel_heard outlets.now) channels.now) frame }
{
    for (k, channel) in channels.iter().enumerate() {
        let sample = sample_at(*channel, frames, frame, outlets);
        put_sample(out, from + 2 * k, sample);
    }
}

/// What a channel has in a frame.
fn sample_at(channel: Option<Source>, frames: usize, frame: usize, outlets: &Outlets) -> Sample
    requires { IsOpen frames outlets.now channel }
    ensures { result ≡ slice_index_or (channel_heard outlets.now channel) frame silent }
{
    match channel {
        Some(source) => at_or_silent(outlets.heard(source), frame),
        None => Sample(0),
    }
}

fn at_or_silent(samples: &[Sample], frame: usize) -> Sample
    ensures { result ≡ slice_index_or samples.now frame silent }
{
    if frame < samples.len() {
        samples[frame]
    } else {
        Sample(0)
    }
}

fn put_sample(out: &mut [u8], at: usize, sample: Sample)
    requires { at + 2 ≤ length out.old }
    ensures { take (at + 2) out.new ≡ take at out.old ++ sample_bytes sample }
{
    let bytes = pcm16(sample).to_le_bytes();
    out[at] = bytes[0];
    out[at + 1] = bytes[1];
}
