ghost use Rattle.std.specs.Prelude.{◌≡◌, ◌<◌, ◌≤◌, length};
ghost use Rattle.plug_api.specs.Buffers.{with_block};
ghost use Rattle.plug_api.specs.Ports.{places_of, outs_of, place_of, IsSameLoan};
ghost use Rattle.stock_tank.specs.Playing.{filled, block_of};

use lv_base::Sample;
use plug_api::Ports;

const OUT: u32 = 2;

/// How many frames the block has.
pub(crate) fn frames(ports: &mut Ports<'_>) -> usize
    requires port { 2 < length (places_of ports.old) }
    requires place { place_of ports.old 2 < length (outs_of ports.old).blocks }
    ensures frames { result ≡ length (block_of ports.old) }
    ensures same { outs_of ports.new ≡ outs_of ports.old }
    ensures same_loan { IsSameLoan ports.old ports.new }
{
    ports.output(OUT).len()
}

/// Writes one sample in some frames of the block.
pub(crate) fn hear(ports: &mut Ports<'_>, from: usize, to: usize, sample: Sample)
    requires port { 2 < length (places_of ports.old) }
    requires place { place_of ports.old 2 < length (outs_of ports.old).blocks }
    requires begins { from ≤ to }
    requires ends { to ≤ length (block_of ports.old) }
    ensures outputs { outs_of ports.new ≡ with_block (outs_of ports.old) (place_of ports.old 2) (filled (block_of ports.old) from to sample) }
    ensures same_loan { IsSameLoan ports.old ports.new }
{
    fill(ports.output(OUT), from, to, sample);
}

fn fill(block: &mut [Sample], from: usize, to: usize, sample: Sample)
    requires begins { from ≤ to }
    requires ends { to ≤ length block.old }
    ensures { block.new ≡ filled block.old from to sample }
{
    block[from..to].fill(sample);
}
