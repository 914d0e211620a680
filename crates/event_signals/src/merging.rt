ghost use Rattle.std.specs.Prelude.{◌≡◌, ◌≤◌, ◌<◌, ◌^◌, ◌-◌, length, map, ℕ};
ghost use Rattle.atom_sequence.specs.Merge.{merged};
ghost use Rattle.plug_api.specs.Buffers.{begun_forge};
ghost use Rattle.plug_api.specs.Sequences.{IsSequence};
ghost use Rattle.event_signals.specs.Merging.{events_of, AreTimed, sequence_of};

use atom_forge::Forge;
use atom_sequence::merge_lists;

/// Makes a forge one finished sequence of the events of these lists, each given as the bytes of its events: in order of time, those at one
/// time in order of the lists, up to the first one that has no room.
pub fn put_merged(into: &mut Forge, lists: &[&[u8]])
    requires few { length lists.now ≤ 257 }
    requires room { 16 ≤ into.old.room }
    requires timed { (frames : ℕ) × AreTimed frames lists.now }
    ensures events { into.new ≡ sequence_of into.old.room (merged (into.old.room - 16) (map events_of lists.now)) }
    ensures sequence { (frames : ℕ) → AreTimed frames lists.now → into.old.room < 2 ^ 32 → IsSequence frames into.new }
{
    begin_sequence(into);
    merge_lists(into, lists);
    into.pop();
}

/// Empties a forge, and opens a sequence in it.
pub fn begin_sequence(into: &mut Forge)
    requires { 16 ≤ into.old.room }
    ensures { into.new ≡ begun_forge into.old.room }
{
    into.clear();
    let _ = into.sequence();
}
