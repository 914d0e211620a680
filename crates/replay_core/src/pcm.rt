ghost use Rattle.std.specs.Prelude.{◌≡◌, ℕ, ◌<◌, ◌++◌, length, All, OnOk};
ghost use Rattle.session_script.specs.declared.session.OutLine.{OutLine};
ghost use Rattle.audio_api.specs.Outputs.{block_at};
ghost use Rattle.audio_api.specs.Sound.{AreWhole};
ghost use Rattle.replay_core.specs.Pcm.{sample_bytes, frame_bytes, block_bytes};

use audio_api::Outs;
use lv_base::{Bytes, NoMemory, Sample, pcm16};
use session_script::Session;

/// Adds the PCM of a block: its frames in order, and of each the channels in order.
pub(crate) fn push_block(pcm: &mut Bytes, session: &Session, outs: &Outs) -> Result<(), NoMemory>
    requires there { All (λ (out : OutLine). out.inst < length outs.now.blocks) session.now.outs }
    requires whole { AreWhole session.now.block outs.now.blocks }
    ensures { OnOk result (pcm.new ≡ pcm.old ++ block_bytes session.now outs.now.blocks) }
{
    for frame in 0..session.block {
        push_frame(pcm, session, outs, frame)?;
    }
    Ok(())
}

fn push_frame(pcm: &mut Bytes, session: &Session, outs: &Outs, frame: u32) -> Result<(), NoMemory>
    requires there { All (λ (out : OutLine). out.inst < length outs.now.blocks) session.now.outs }
    requires whole { AreWhole session.now.block outs.now.blocks }
    requires frame { frame < session.now.block }
    ensures { OnOk result (pcm.new ≡ pcm.old ++ frame_bytes session.now outs.now.blocks frame) }
{
    for out in session.outs.as_slice() {
        let signal = outs.block(out.inst);
        push_sample(pcm, signal[frame as usize])?;
    }
    Ok(())
}

fn push_sample(pcm: &mut Bytes, sample: Sample) -> Result<(), NoMemory>
    ensures { OnOk result (pcm.new ≡ pcm.old ++ sample_bytes sample) }
{
    let bytes = pcm16(sample).to_le_bytes();
    pcm.push_all(&bytes)
}
