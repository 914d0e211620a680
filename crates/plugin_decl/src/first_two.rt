ghost use Rattle.std.specs.Prelude.{◌≡◌, ◌∷◌, ◌++◌, [], take};
ghost use Rattle.std.specs.Option.{option_copied};
ghost use Rattle.plugin_decl.specs.Objects.{first, only};
ghost use Rattle.plugin_decl.specs.PortFacts.{two_of, told};

use crate::naming::is_word;
use triple_store::{Term, Triple};
use vocabulary::Word;

/// The first two of some objects. They tell which is the first, and whether it is the only one.
#[derive(Clone, Copy)]
pub enum FirstTwo<'a> {
    /// There is none.
    Neither,
    /// There is one alone.
    One(&'a Term),
    /// There are two or more.
    Both(&'a Term, &'a Term),
}

impl<'a> FirstTwo<'a> {
    /// With one object more.
    fn with(self, object: &'a Term) -> Self
        ensures { two_of result ≡ take 2 (two_of self.entry ++ object.now ∷ []) }
    {
        match self {
            FirstTwo::Neither => FirstTwo::One(object),
            FirstTwo::One(first) => FirstTwo::Both(first, object),
            FirstTwo::Both(first, second) => FirstTwo::Both(first, second),
        }
    }

    /// With the object of a row, if it has this predicate.
    #[tactic(auto, using(crate::proofs::PortFacts::told_there, crate::proofs::PortFacts::told_other, crate::proofs::PortFacts::same_two))]
    pub(crate) fn with_row(self, predicate: Word, row: &'a Triple) -> Self
        ensures { two_of result ≡ take 2 (two_of self.entry ++ told (row.now ∷ []) predicate) }
    {
        if is_word(predicate, &row.p) {
            self.with(&row.o)
        } else {
            self
        }
    }

    pub(crate) fn first(self) -> Option<&'a Term>
        ensures { option_copied result ≡ first (two_of self.entry) }
    {
        match self {
            FirstTwo::Neither => None,
            FirstTwo::One(first) => Some(first),
            FirstTwo::Both(first, _) => Some(first),
        }
    }

    /// The one object, where there is no other.
    pub(crate) fn only(self) -> Option<&'a Term>
        ensures { option_copied result ≡ only (two_of self.entry) }
    {
        match self {
            FirstTwo::One(object) => Some(object),
            _ => None,
        }
    }
}
