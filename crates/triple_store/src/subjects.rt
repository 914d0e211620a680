ghost use Rattle.std.specs.Prelude.{◌≡◌, ◌≤◌, ◌-◌, [], take, length, if◌then◌else◌, slice_get, Some, IsTrue, IfOk, IfSome, OnOk, OnErr};
ghost use Rattle.std.specs.Option.{option_map_or};
ghost use Rattle.indexmap.specs.IndexMap.{keys, get};
ghost use Rattle.triple_store.specs.Index.{AreIndexed, ends_of};
ghost use Rattle.triple_store.specs.Triples.{same_term};
ghost use Rattle.triple_store.specs.declared.fault.TheConstants.{MOST_ROWS};
ghost use Rattle.triple_store.specs.declared.term.Term.{Term};

use crate::term::same;
use crate::{Term, Triple};
use indexmap::IndexMap;
use lv_base::NoMemory;
use seeded_hash::SeededHash;
use std::alloc::Global;

type SubjectEnds = IndexMap<Term, Ends, SeededHash>;

/// The places of a subject's first and last row.
#[derive(Clone, Copy)]
pub struct Ends {
    pub(crate) first: u32,
    pub(crate) last: u32,
}

/// For each subject the chain of its rows. A list for each subject would take more memory where subjects have few rows.
#[derive(Drop)]
pub struct Subjects {
    pub(crate) ends: SubjectEnds,
    // At each row the place of the next one of its subject, where one follows.
    pub(crate) next: Vec<u32>,
    // At each row the place of the one before it of its subject, where one precedes it.
    pub(crate) previous: Vec<u32>,
    recent: Recent,
}

// Where the two subjects that came last stand among them, if they are still there: each use compares them.
#[derive(Clone, Copy)]
struct Recent {
    latest: usize,
    earlier: usize,
}

impl Recent {
    // Where a subject stands, if it is one of the two. Rows mostly come subject by subject, and after a nested one the outer one
    // goes on, so both are tried before any hash.
    fn place_of(&self, ends: &SubjectEnds, subject: &Term) -> Option<usize>
        ensures { IfSome result (λ at. slice_get (keys ends.now) at ≡ Some subject.now) }
    {
        if stands_at(ends, self.latest, subject) {
            Some(self.latest)
        } else if stands_at(ends, self.earlier, subject) {
            Some(self.earlier)
        } else {
            None
        }
    }

    // Notes that the subject there came last.
    fn note(&mut self, at: usize) {
        if at != self.latest {
            self.earlier = self.latest;
            self.latest = at;
        }
    }
}

fn stands_at(ends: &SubjectEnds, at: usize, subject: &Term) -> bool
    ensures { IsTrue result → slice_get (keys ends.now) at ≡ Some subject.now }
{
    match ends.get_index(at) {
        Some((term, _)) => same(term, subject),
        None => false,
    }
}

// Gives a subject its last row at this place, and answers which ends it had before. A refusal leaves all as before.
fn end_at(
    ends: &mut SubjectEnds,
    recent: &mut Recent,
    subject: &Term,
    place: u32,
) -> Result<Option<Ends>, NoMemory>
    ensures before { IfOk result (λ before. before ≡ get same_term ends.old subject.now) }
    ensures after { IfOk result (λ before. (q : Term) → get same_term ends.new q ≡ (if same_term subject.now q then Some (record { first = option_map_or (λ e. e.first) before place; last = place }) else get same_term ends.old q)) }
    ensures err { OnErr result ((q : Term) → get same_term ends.new q ≡ get same_term ends.old q) }
{
    if let Some(at) = recent.place_of(ends, subject) {
        recent.note(at);
        let (_, kept) = ends.pair_mut(at);
        let before = *kept;
        kept.last = place;
        return Ok(Some(before));
    }
    let only = Ends {
        first: place,
        last: place,
    };
    let (at, before) = ends.insert_full(subject.clone()?, only)?;
    recent.note(at);
    if let Some(ends_before) = before {
        let (_, kept) = ends.pair_mut(at);
        kept.first = ends_before.first;
    }
    Ok(before)
}

impl Subjects {
    pub(crate) fn new(alloc: Global, hashing: SeededHash) -> Self
        ensures { AreIndexed result [] }
    {
        Subjects {
            ends: IndexMap::with_hasher(alloc, hashing),
            next: Vec::new(alloc),
            previous: Vec::new(alloc),
            recent: Recent {
                latest: 0,
                earlier: 0,
            },
        }
    }

    // Adds the last of these rows, where it has those before it. A refusal leaves all as before.
    pub(crate) fn add(&mut self, rows: &[Triple]) -> Result<(), NoMemory>
        requires few { length rows.now ≤ MOST_ROWS }
        requires indexed { AreIndexed self.old (take (length rows.now - 1) rows.now) }
        ensures ok { OnOk result (AreIndexed self.new rows.now) }
        ensures err { OnErr result (AreIndexed self.new (take (length rows.now - 1) rows.now)) }
    {
        let Some((row, front)) = rows.split_last() else {
            return Ok(());
        };
        let place = front.len() as u32;
        self.next.reserve(1)?;
        self.previous.reserve(1)?;
        match end_at(&mut self.ends, &mut self.recent, &row.s, place)? {
            Some(before) => {
                self.next[before.last as usize] = place;
                self.next.push_reserved(place);
                self.previous.push_reserved(before.last);
            }
            None => {
                self.next.push_reserved(place);
                self.previous.push_reserved(place);
            }
        }
        Ok(())
    }

    // Drops the last of these rows.
    pub(crate) fn drop_last(&mut self, rows: &[Triple])
        requires { AreIndexed self.old rows.now }
        ensures { AreIndexed self.new (take (length rows.now - 1) rows.now) }
    {
        let Some((row, _)) = rows.split_last() else {
            return;
        };
        self.next.pop();
        let Some(previous) = self.previous.pop() else {
            return;
        };
        let Some(ends) = self.ends.get_mut(&row.s) else {
            return;
        };
        if ends.first == ends.last {
            self.ends.swap_remove(&row.s);
        } else {
            ends.last = previous;
        }
    }

    pub(crate) fn ends(&self, subject: &Term) -> Option<Ends>
        ensures { result ≡ ends_of self.now subject.now }
    {
        match self.recent.place_of(&self.ends, subject) {
            Some(at) => {
                // `len` is called for its clause that no two keys are equal.
                let _count = self.ends.len();
                let (_, ends) = self.ends.get_index(at)?;
                Some(*ends)
            }
            None => self.ends.get(subject).copied(),
        }
    }
}
