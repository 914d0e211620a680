ghost use Rattle.std.specs.Prelude.{◌≡◌, ◌≤◌, List, length};
ghost use Rattle.std.specs.List.{All};
ghost use Rattle.atom_forge.specs.Forged.{left};
ghost use Rattle.atom_sequence.specs.Event.{Event};
ghost use Rattle.atom_sequence.specs.Merge.{merged};
ghost use Rattle.atom_sequence.specs.Views.{AwaitsEvent, with_events};
ghost use Rattle.atom_sequence.specs.Cursors.{HaveLeft, EachNeverFalls};
ghost use Rattle.atom_sequence.specs.Lists.{IsList, HoldLists};

use crate::cursor::Cursor;
use crate::merger::{MOST_VIEWS, merge};
use atom_forge::Forge;

/// Writes the events of lists, each given as the bytes of its events, into an open sequence: in order of time, those at one time in order
/// of the lists, up to the first one that has no room. It gives the number of those that are written.
pub fn merge_lists(into: &mut Forge, lists: &[&[u8]]) -> u32
    requires few { length lists.now ≤ MOST_VIEWS }
    requires spelled { All IsList lists.now }
    requires awaits { AwaitsEvent into.old }
    ensures events { (all : List (List Event)) → HoldLists lists.now all → EachNeverFalls all → into.new ≡ with_events into.old (merged (left into.old) all) }
    ensures still { AwaitsEvent into.new }
{
    let mut cursors = [Cursor::done(); MOST_VIEWS];
    let live = &mut cursors[..lists.len()];
    begin(live, lists);
    merge(live, into)
}

/// Puts each cursor at the first event of its list.
fn begin<'a>(cursors: &mut [Cursor<'a>], lists: &[&'a [u8]])
    requires same { length cursors.old ≡ length lists.now }
    requires spelled { All IsList lists.now }
    ensures { (all : List (List Event)) → HoldLists lists.now all → HaveLeft cursors.new all }
{
    for place in 0..lists.len() {
        let events = lists[place];
        cursors[place] = Cursor::over(events);
    }
}
