ghost use Rattle.std.specs.Prelude.{◌≡◌, ◌<◌, length, replicate};
ghost use Rattle.plug_api.specs.Buffers.{block_at, with_block};
ghost use Rattle.plug_api.specs.Ports.{places_of, outs_of, place_of, IsSameLoan};

use lv_base::Sample;
use plug_api::Ports;

/// Writes the same sample in each frame of an output.
pub(crate) fn fill(ports: &mut Ports<'_>, i: u32, sample: Sample)
    requires port { i < length (places_of ports.old) }
    requires place { place_of ports.old i < length (outs_of ports.old).blocks }
    ensures outputs { outs_of ports.new ≡ with_block (outs_of ports.old) (place_of ports.old i) (replicate (length (block_at (outs_of ports.old).blocks (place_of ports.old i))) sample) }
    ensures same_loan { IsSameLoan ports.old ports.new }
{
    ports.output(i).fill(sample);
}
