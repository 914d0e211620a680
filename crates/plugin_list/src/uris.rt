ghost use Rattle.std.specs.Prelude.{◌≡◌, ◌++◌, IfOk, OnOk};
ghost use Rattle.std.specs.List.{filter_map};
ghost use Rattle.triple_store.specs.declared.term.Term.TheVariants.{Iri};
ghost use Rattle.vocabulary.specs.Words.{iri_of};
ghost use Rattle.plugin_list.specs.Plugins.{subject_iri, plugins_of};

use lv_base::{Items, NoMemory, Text};
use std::alloc::Global;
use triple_store::{Matching, Store, Term};
use vocabulary::Word;

/// The IRIs that are an `lv2:Plugin`, in order of the rows that say so. A blank node that is one has no IRI, and isn't listed.
///
/// The time is in proportion to the rows of the store.
pub fn plugins(alloc: Global, store: &Store) -> Result<Items<Text>, NoMemory>
    ensures { IfOk result (λ uris. uris ≡ plugins_of store.now) }
{
    let mut uris = Items::new(alloc);
    push_plugins(alloc, store, &mut uris)?;
    Ok(uris)
}

fn push_plugins(alloc: Global, store: &Store, uris: &mut Items<Text>) -> Result<(), NoMemory>
    ensures { OnOk result (uris.new ≡ uris.old ++ plugins_of store.now) }
{
    let predicate = iri(alloc, Word::RdfType)?;
    let class = iri(alloc, Word::Lv2Plugin)?;
    push_subjects(store.matching(None, Some(&predicate), Some(&class)), uris)
}

/// Adds the IRIs of these rows' subjects, where they have one.
fn push_subjects(rows: Matching<'_>, uris: &mut Items<Text>) -> Result<(), NoMemory>
    ensures { OnOk result (uris.new ≡ uris.old ++ filter_map subject_iri rows.entry) }
{
    for row in rows {
        if let Term::Iri(uri) = &row.s {
            uris.push(uri.clone()?)?;
        }
    }
    Ok(())
}

fn iri(alloc: Global, word: Word) -> Result<Term, NoMemory>
    ensures { IfOk result (λ term. term ≡ Iri (iri_of word)) }
{
    Ok(Term::Iri(Text::from_str(alloc, word.iri())?))
}
