ghost use Rattle.std.specs.Prelude.{◌≡◌, filter};
ghost use Rattle.std.specs.Iterator.{YieldsFirstRef, item_count};
ghost use Rattle.std.specs.Option.{option_copied};
ghost use Rattle.state_file.specs.Objects.{names, text_in, iri_in, is_of_kind, objects_of, only, one_of};

use lv_base::Text;
use std::marker::Model;
use triple_store::{Matching, Store, Term};
use vocabulary::Word;

/// Which objects count.
#[derive(Clone, Copy)]
pub enum Kind {
    Whichever,
    OneIri,
    OneLiteral,
    /// An IRI or a blank node.
    OneNode,
}

/// Whether a term is the IRI of this word.
pub(crate) fn names(word: Word, term: &Term) -> bool
    ensures { result ≡ names word term.now }
{
    match term {
        Term::Iri(iri) => word.iri() == iri.as_str(),
        _ => false,
    }
}

/// The text of a literal.
pub(crate) fn text(term: &Term) -> Option<&Text>
    ensures { option_copied result ≡ text_in term.now }
{
    match term {
        Term::Literal { text, .. } => Some(text),
        _ => None,
    }
}

/// The IRI that a term is.
pub(crate) fn iri(term: &Term) -> Option<&Text>
    ensures { option_copied result ≡ iri_in term.now }
{
    match term {
        Term::Iri(iri) => Some(iri),
        _ => None,
    }
}

impl Kind {
    fn counts(self, term: &Term) -> bool
        ensures { result ≡ is_of_kind self term.now }
    {
        match self {
            Kind::Whichever => true,
            Kind::OneIri => matches!(term, Term::Iri(_)),
            Kind::OneLiteral => matches!(term, Term::Literal { .. }),
            Kind::OneNode => !matches!(term, Term::Literal { .. }),
        }
    }
}

/// The objects of a kind, of a subject's rows with one predicate, in order of the rows. Contracts see the list of those that are left.
#[derive(Drop)]
struct Found<'a> {
    rows: Matching<'a>,
    predicate: Word,
    kind: Kind,
}

impl<'a> Model for Found<'a> {
    ghost use Rattle.std.specs.Prelude.{List, map, filter};
    ghost use Rattle.state_file.specs.Objects.{names, is_of_kind};
    ghost use Rattle.triple_store.specs.declared.term.Term.{Term};
    ghost use Rattle.triple_store.specs.declared.term.Triple.{Triple};

    ghost Value = { List Term };

    ghost view = { λ o. filter (is_of_kind o.kind) (map (λ (row : Triple). row.o) (filter (λ (row : Triple). names o.predicate row.p) o.rows)) };
}

impl<'a> Iterator for Found<'a> {
    type Item = &'a Term;

    ghost next_gives = { YieldsFirstRef (λ left. left) };

    ghost remaining = { item_count (λ left. left) };

    fn next(&mut self) -> Option<&'a Term> {
        while let Some(row) = self.rows.next() {
            if names(self.predicate, &row.p) && self.kind.counts(&row.o) {
                return Some(&row.o);
            }
        }
        None
    }
}

fn objects<'a>(store: &'a Store, subject: &'a Term, predicate: Word, kind: Kind) -> Found<'a>
    ensures { result ≡ filter (is_of_kind kind) (objects_of store.now subject.now predicate) }
{
    Found {
        rows: store.matching(Some(subject), None, None),
        predicate,
        kind,
    }
}

/// The object of a kind, if there is exactly one.
#[tactic(auto, unfolding(crate::specs::Objects::one_of))]
pub(crate) fn one<'a>(
    store: &'a Store,
    subject: &'a Term,
    predicate: Word,
    kind: Kind,
) -> Option<&'a Term>
    ensures { option_copied result ≡ one_of kind store.now subject.now predicate }
{
    let mut objects = objects(store, subject, predicate, kind);
    let object = objects.next()?;
    match objects.next() {
        None => Some(object),
        Some(_) => None,
    }
}
