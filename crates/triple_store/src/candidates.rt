ghost use Rattle.std.specs.Prelude.{◌≡◌, ◌≢◌, ◌<◌, ◌∷◌, [], length, slice_get, Some, MatchOption};
ghost use Rattle.triple_store.specs.Chain.{rows_left, IsChain};
ghost use Rattle.triple_store.specs.Candidates.{candidates_of};

use crate::Triple;
use crate::subjects::Ends;
use std::marker::Model;

/// The rows of one subject, along their chain. Contracts see the list of those that are left.
#[derive(Drop)]
pub struct Chain<'a> {
    rows: &'a [Triple],
    next: &'a [u32],
    left: Option<Ends>,
}

impl<'a> Model for Chain<'a> {
    ghost use Rattle.std.specs.Prelude.{List};
    ghost use Rattle.triple_store.specs.Chain.{rows_left, IsChain};
    ghost use Rattle.triple_store.specs.declared.term.Triple.{Triple};

    ghost Value = { List Triple };

    ghost view = { λ c. rows_left c.rows.now c.left };

    ghost invariant = { λ c. IsChain c.rows.now c.next.now c.left };
}

impl<'a> Chain<'a> {
    pub(crate) fn new(rows: &'a [Triple], next: &'a [u32], left: Option<Ends>) -> Self
        requires { IsChain rows.now next.now left }
        ensures { result ≡ rows_left rows.now left }
    {
        Chain { rows, next, left }
    }

    pub(crate) fn next(&mut self) -> Option<&'a Triple>
        ensures { MatchOption result ((self.old ≡ []) × (self.new ≡ [])) (λ row. self.old ≡ row.now ∷ self.new) }
    {
        let ends = self.left?;
        let row = &self.rows[ends.first as usize];
        self.left = after(self.next, ends);
        Some(row)
    }
}

// What is left of a chain after its first row.
fn after(next: &[u32], ends: Ends) -> Option<Ends>
    requires { ends.first < length next.now }
    ensures { MatchOption result (ends.first ≡ ends.last) (λ left. (ends.first ≢ ends.last) × (slice_get next.now ends.first ≡ Some left.first) × (left.last ≡ ends.last)) }
{
    if ends.first == ends.last {
        return None;
    }
    Some(Ends {
        first: next[ends.first as usize],
        last: ends.last,
    })
}

/// Where the rows of a pattern are looked for.
#[derive(Drop)]
pub enum Candidates<'a> {
    /// In all rows.
    All(&'a [Triple]),
    /// In those of a subject.
    OfSubject(Chain<'a>),
}

impl<'a> Candidates<'a> {
    pub(crate) fn next(&mut self) -> Option<&'a Triple>
        ensures { MatchOption result ((candidates_of self.old ≡ []) × (candidates_of self.new ≡ [])) (λ row. candidates_of self.old ≡ row.now ∷ candidates_of self.new) }
    {
        match self {
            Candidates::All(rows) => {
                let (first, rest) = rows.split_first()?;
                *rows = rest;
                Some(first)
            }
            Candidates::OfSubject(chain) => chain.next(),
        }
    }
}
