ghost use Rattle.triple_store.specs.Compared.{Tells};
ghost use Rattle.std.specs.Prelude.{◌≡◌, ◌↔◌, IsTrue};

use crate::Triple;
use crate::candidates::Chain;
use crate::late::COMPARED;
use crate::term::same;

/// What comparing a triple with the first rows of its subject tells.
#[derive(Clone, Copy)]
pub enum Compared {
    There,
    /// The subject has no further rows.
    Missing,
    /// It isn't one of them, and they are as many as are compared.
    Undecided,
}

fn are_same(a: &Triple, b: &Triple) -> bool
    ensures { IsTrue result ↔ (a.now ≡ b.now) }
{
    same(&a.p, &b.p) && same(&a.o, &b.o) && same(&a.s, &b.s)
}

/// Compares a triple with the first rows of a chain.
pub fn compare(chain: Chain<'_>, triple: &Triple) -> Compared
    ensures { Tells chain.entry triple.now result }
{
    let mut left = chain;
    for _ in 0..COMPARED {
        let Some(row) = left.next() else {
            return Compared::Missing;
        };
        if are_same(row, triple) {
            return Compared::There;
        }
    }
    Compared::Undecided
}
