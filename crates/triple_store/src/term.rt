ghost use Rattle.std.specs.Prelude.{◌≡◌, ◌≤◌, ◌^◌};
ghost use Rattle.std.proofs.Common.{rules};
ghost use Rattle.std.specs.Cmp.Rules.{hashing};
ghost use Rattle.triple_store.specs.Hashed.{fed_of};
ghost use Rattle.triple_store.specs.Triples.{same_term, blanks_of_term, blanks_of_triple};

use lv_base::Text;
use std::hash::{Hash, Hasher};

/// A term of RDF 1.1. Two are equal exactly where they are of one kind and have the same characters (sections 3.2 to 3.4).
#[derive(Clone, Debug, PartialEq, Eq, Drop)]
pub enum Term {
    /// An IRI in full.
    Iri(Text),
    /// A blank node, by the number that its reader gave it.
    Blank(u32),
    /// A literal: its text, the IRI of its datatype, and its language tag, empty without one.
    Literal {
        text: Text,
        datatype: Text,
        lang: Text,
    },
}

/// An IRI, the kind that comes most, is fed as its text alone. The other kinds begin with a byte that stands in no UTF-8, so that
/// it begins no text: 0xFE a blank node, 0xFD a literal without a language tag, 0xFC one with a tag. A byte 0xFF ends each text.
impl Hash for Term {
    ghost hash_input = { fed_of };

    ghost respects_eq = { Prim.search (hashing, rules) };

    fn hash<H: Hasher>(&self, state: &mut H) {
        match self {
            Term::Iri(iri) => iri.hash(state),
            Term::Blank(number) => {
                0xFEu8.hash(state);
                number.hash(state);
            }
            Term::Literal {
                text,
                datatype,
                lang,
            } if lang.as_str().is_empty() => {
                0xFDu8.hash(state);
                text.hash(state);
                datatype.hash(state);
            }
            Term::Literal {
                text,
                datatype,
                lang,
            } => {
                0xFCu8.hash(state);
                text.hash(state);
                datatype.hash(state);
                lang.hash(state);
            }
        }
    }
}

/// A triple of RDF 1.1: subject, predicate, object.
#[derive(Clone, Debug, PartialEq, Eq, Hash, Drop)]
pub struct Triple {
    pub s: Term,
    pub p: Term,
    pub o: Term,
}

// `==`, with its answer in the words of `specs/`.
pub(crate) fn same(a: &Term, b: &Term) -> bool
    ensures { result ≡ same_term a.now b.now }
{
    a == b
}

fn blanks_of_one(term: &Term) -> u32
    requires { blanks_of_term term.now ≤ 2 ^ 31 }
    ensures { result ≡ blanks_of_term term.now }
{
    match term {
        Term::Blank(number) => *number + 1,
        _ => 0,
    }
}

// One above the greatest blank number of a triple.
pub(crate) fn blanks_of(triple: &Triple) -> u32
    requires { blanks_of_triple triple.now ≤ 2 ^ 31 }
    ensures { result ≡ blanks_of_triple triple.now }
{
    blanks_of_one(&triple.s).max(blanks_of_one(&triple.p).max(blanks_of_one(&triple.o)))
}
