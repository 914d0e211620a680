ghost use Rattle.std.specs.Prelude.{◌≡◌, filter, None};
ghost use Rattle.std.specs.Iterator.{YieldsFirstRef, item_count};
ghost use Rattle.std.specs.Option.{option_copied};
ghost use Rattle.triple_store.specs.Triples.{agrees, allows};
ghost use Rattle.triple_store.specs.Candidates.{candidates_of};

use crate::candidates::Candidates;
use crate::term::same;
use crate::{Term, Triple};
use std::marker::Model;

/// The rows that agree with a pattern, in the order in which they were added. `Store::matching` makes it. Contracts see the list
/// of the rows that are left.
#[derive(Drop)]
pub struct Matching<'a> {
    candidates: Candidates<'a>,
    p: Option<&'a Term>,
    o: Option<&'a Term>,
}

impl<'a> Model for Matching<'a> {
    ghost use Rattle.std.specs.Prelude.{List, filter, None};
    ghost use Rattle.std.specs.Option.{option_copied};
    ghost use Rattle.triple_store.specs.Triples.{agrees};
    ghost use Rattle.triple_store.specs.Candidates.{candidates_of};
    ghost use Rattle.triple_store.specs.declared.term.Triple.{Triple};

    ghost Value = { List Triple };

    ghost view = { λ m. filter (agrees None (option_copied m.p) (option_copied m.o)) (candidates_of m.candidates) };
}

impl<'a> Matching<'a> {
    // Those of the candidates with this predicate and this object.
    pub(crate) fn new(candidates: Candidates<'a>, p: Option<&'a Term>, o: Option<&'a Term>) -> Self
        ensures { result ≡ filter (agrees None (option_copied p.entry) (option_copied o.entry)) (candidates_of candidates.entry) }
    {
        Matching { candidates, p, o }
    }
}

fn allowed(wanted: Option<&Term>, term: &Term) -> bool
    ensures { result ≡ allows (option_copied wanted.entry) term.now }
{
    match wanted {
        None => true,
        Some(wanted) => same(wanted, term),
    }
}

impl<'a> Iterator for Matching<'a> {
    type Item = &'a Triple;

    ghost next_gives = { YieldsFirstRef (λ left. left) };

    ghost remaining = { item_count (λ left. left) };

    fn next(&mut self) -> Option<&'a Triple> {
        while let Some(row) = self.candidates.next() {
            if allowed(self.p, &row.p) && allowed(self.o, &row.o) {
                return Some(row);
            }
        }
        None
    }
}
