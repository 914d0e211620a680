ghost use Rattle.std.specs.Prelude.{◌≡◌, map, filter, IfOk};
ghost use Rattle.std.specs.Iterator.{YieldsFirstRef, item_count};
ghost use Rattle.std.specs.Option.{option_copied};
ghost use Rattle.plugin_decl.specs.Naming.{names};
ghost use Rattle.plugin_decl.specs.Objects.{object, objects_of, has, is_a, first, only};

use crate::naming::is_word;
use lv_base::NoMemory;
use std::marker::Model;
use triple_store::{Matching, Store, Term};
use vocabulary::Word;

/// The objects of a subject's rows with one predicate, in order of the rows. Contracts see the list of those that are left.
#[derive(Drop)]
pub(crate) struct Found<'a> {
    rows: Matching<'a>,
    predicate: Word,
}

impl<'a> Model for Found<'a> {
    ghost use Rattle.std.specs.Prelude.{List, map, filter};
    ghost use Rattle.triple_store.specs.declared.term.Term.{Term};
    ghost use Rattle.triple_store.specs.declared.term.Triple.{Triple};
    ghost use Rattle.plugin_decl.specs.Naming.{names};
    ghost use Rattle.plugin_decl.specs.Objects.{object};

    ghost Value = { List Term };

    ghost view = { λ o. map object (filter (λ (row : Triple). names o.predicate row.p) o.rows) };
}

impl<'a> Iterator for Found<'a> {
    type Item = &'a Term;

    ghost next_gives = { YieldsFirstRef (λ left. left) };

    ghost remaining = { item_count (λ left. left) };

    fn next(&mut self) -> Option<&'a Term> {
        while let Some(row) = self.rows.next() {
            if is_word(self.predicate, &row.p) {
                return Some(&row.o);
            }
        }
        None
    }
}

/// The objects of the rows with this subject and this predicate.
pub(crate) fn objects<'a>(store: &'a Store, subject: &'a Term, predicate: Word) -> Found<'a>
    ensures { result ≡ objects_of store.now subject.now predicate }
{
    Found {
        rows: store.matching(Some(subject), None, None),
        predicate,
    }
}

/// A copy of a term. It shares its texts.
pub(crate) fn copy_of(term: &Term) -> Result<Term, NoMemory>
    ensures { IfOk result (λ copy. copy ≡ term.now) }
{
    Ok(term.clone()?)
}

/// The first of these objects.
pub(crate) fn first<'a>(store: &'a Store, subject: &'a Term, predicate: Word) -> Option<&'a Term>
    ensures { option_copied result ≡ first (objects_of store.now subject.now predicate) }
{
    objects(store, subject, predicate).next()
}

/// The one of these objects, where there is no other.
pub(crate) fn only<'a>(store: &'a Store, subject: &'a Term, predicate: Word) -> Option<&'a Term>
    ensures { option_copied result ≡ only (objects_of store.now subject.now predicate) }
{
    let mut objects = objects(store, subject, predicate);
    let object = objects.next()?;
    match objects.next() {
        None => Some(object),
        Some(_) => None,
    }
}

/// Whether one of these objects is an IRI.
#[tactic(auto, unfolding(crate::specs::Objects::has))]
pub(crate) fn has(store: &Store, subject: &Term, predicate: Word, word: Word) -> bool
    ensures { result ≡ has store.now subject.now predicate word }
{
    objects(store, subject, predicate).any(|object| is_word(word, object))
}

/// Whether the subject is of a class.
pub(crate) fn is_a(store: &Store, subject: &Term, class: Word) -> bool
    ensures { result ≡ is_a store.now subject.now class }
{
    has(store, subject, Word::RdfType, class)
}
