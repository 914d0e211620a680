ghost use Rattle.std.specs.Prelude.{◌≡◌, ◌++◌, ◌<◌, ◌↔◌, [], ◌∷◌, List, IsTrue, IsFalse, length, map, slice_set};
ghost use Rattle.std.specs.List.{All};
ghost use Rattle.atom_core.specs.declared.view.AtomView.{AtomView};
ghost use Rattle.atom_forge.specs.Forged.{left};
ghost use Rattle.atom_sequence.specs.Event.{Event};
ghost use Rattle.atom_sequence.specs.Merge.{merged};
ghost use Rattle.atom_sequence.specs.Views.{IsSequence, IsInOrder, HoldEvents, IsEmptySequence, AwaitsEvent, with_events};
ghost use Rattle.atom_sequence.specs.Cursors.{HaveLeft, EachNeverFalls, bytes_of};

use crate::cursor::{Cursor, earliest};
use atom_core::AtomView;
use atom_forge::Forge;
use std::marker::Model;

/// How many views a merger may hold.
pub const MOST_VIEWS: usize = 257;

/// What stands where no view is held: a Tuple of nothing.
const NOTHING: [u8; 8] = [0, 0, 0, 0, 8, 0, 0, 0];

/// Views of sequences that are to be merged. Contracts see the bytes of each, in order of adding.
#[derive(Drop)]
pub struct Merger<'a> {
    views: [AtomView<'a>; MOST_VIEWS],
    count: usize,
}

impl<'a> Model for Merger<'a> {
    ghost use Rattle.std.specs.Prelude.{List, ℕ};

    ghost Value = { List (List ℕ) };

    ghost use Rattle.atom_sequence.specs.Inside.{views_of, IsSound};

    ghost view = { views_of };

    ghost invariant = { IsSound };
}

impl<'a> Merger<'a> {
    /// A merger that holds no view.
    pub fn new() -> Self
        ensures { result ≡ [] }
    {
        Merger {
            views: [AtomView::over(&NOTHING); MOST_VIEWS],
            count: 0,
        }
    }

    /// Adds a view after the others, if fewer than 257 are held.
    pub fn add(&mut self, view: AtomView<'a>) -> bool
        ensures room { IsTrue result ↔ (length self.old < MOST_VIEWS) }
        ensures added { IsTrue result → self.new ≡ self.old ++ view.entry.bytes.now ∷ [] }
        ensures full { IsFalse result → self.new ≡ self.old }
    {
        if self.count == MOST_VIEWS {
            return false;
        }
        let place = self.count;
        put(&mut self.views, place, view);
        self.count += 1;
        true
    }

    /// Writes the events of all views into an empty sequence, in order of time, those at one time in order of adding, up to the first one
    /// that has no room. It gives the number of those that are written.
    pub fn write(&self, into: &mut Forge) -> u32
        requires open { IsEmptySequence into.old }
        requires sequences { All IsSequence self.now }
        requires order { All IsInOrder self.now }
        ensures events { (lists : List (List Event)) → HoldEvents self.now lists → into.new ≡ with_events into.old (merged (left into.old) lists) }
        ensures count { (lists : List (List Event)) → HoldEvents self.now lists → result ≡ length (merged (left into.old) lists) }
        ensures still { AwaitsEvent into.new }
    {
        let mut cursors = [Cursor::done(); MOST_VIEWS];
        let live = &mut cursors[..self.count];
        begin(live, &self.views[..self.count]);
        merge(live, into)
    }
}

/// Puts a view at a place.
fn put<'a>(views: &mut [AtomView<'a>], place: usize, view: AtomView<'a>)
    requires { place < length views.old }
    ensures { views.new ≡ slice_set views.old place view.entry }
{
    views[place] = view;
}

/// Puts each cursor at the first event of its view.
fn begin<'a>(cursors: &mut [Cursor<'a>], views: &[AtomView<'a>])
    requires { length cursors.old ≡ length views.now }
    ensures { (lists : List (List Event)) → HoldEvents (map bytes_of views.now) lists → HaveLeft cursors.new lists }
{
    for (place, view) in views.iter().enumerate() {
        cursors[place] = Cursor::of(*view);
    }
}

/// Writes the earliest event that is left, again and again, while there is one and it has room. It gives their number.
pub fn merge(cursors: &mut [Cursor<'_>], into: &mut Forge) -> u32
    requires left { ∥ ((lists : List (List Event)) × HaveLeft cursors.old lists) ∥₁ }
    requires awaits { AwaitsEvent into.old }
    ensures events { (lists : List (List Event)) → HaveLeft cursors.old lists → EachNeverFalls lists → into.new ≡ with_events into.old (merged (left into.old) lists) }
    ensures count { (lists : List (List Event)) → HaveLeft cursors.old lists → EachNeverFalls lists → result ≡ length (merged (left into.old) lists) }
    ensures still { AwaitsEvent into.new }
{
    let mut written = 0;
    while let Some(place) = earliest(cursors) {
        match cursors[place].put(into) {
            Ok(next) => cursors[place] = next,
            Err(_) => break,
        }
        written += 1;
    }
    written
}
