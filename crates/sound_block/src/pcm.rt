ghost use Rattle.std.specs.Prelude.{◌≡◌, ◌*◌, length, flat_map};
ghost use Rattle.sound_block.specs.Block.{sample_bytes};

use lv_base::{Sample, pcm16};

/// A signal as PCM: two bytes a sample, the low one first.
pub fn to_pcm(x: &[Sample], out: &mut [u8])
    requires { length out.old ≡ 2 * length x.now }
    ensures { out.new ≡ flat_map sample_bytes x.now }
{
    for frame in 0..x.len() {
        let bytes = pcm16(x[frame]).to_le_bytes();
        out[2 * frame] = bytes[0];
        out[2 * frame + 1] = bytes[1];
    }
}
