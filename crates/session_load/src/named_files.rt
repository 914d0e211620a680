ghost use Rattle.std.specs.Prelude.{◌≡◌, [], ◌∷◌, ◌++◌, map, filter, IfOk, OnOk, None, Some};
ghost use Rattle.std.specs.List.{list_any, filter_map};
ghost use Rattle.triple_store.specs.Triples.{agrees, same_term};
ghost use Rattle.triple_store.specs.declared.term.Term.{Term};
ghost use Rattle.triple_store.specs.declared.term.Term.TheVariants.{Iri};
ghost use Rattle.plugin_decl.specs.Objects.{is_a};
ghost use Rattle.vocabulary.specs.Words.{iri_of};
ghost use Rattle.vocabulary.specs.declared.word.Word.TheVariants.{Lv2Plugin};
ghost use Rattle.session_load.specs.Names.{manifest, folder_iri, see_also, subject, file_of, joined, each_once, files_named};

use crate::file_name::FileName;
use indexmap::IndexSet;
use lv_base::{NoMemory, Text};
use seeded_hash::SeededHash;
use std::alloc::Global;
use triple_store::{Matching, Store, Term, Triple};
use vocabulary::Word;

type Terms = IndexSet<Term, SeededHash>;

pub(crate) type FileNames = IndexSet<FileName, SeededHash>;

/// The manifest, and after it the files that its rows name, in order of the rows, each once.
pub(crate) fn files_named(alloc: Global, number: u32, store: &Store) -> Result<FileNames, NoMemory>
    ensures { IfOk result (λ files. files.keys ≡ manifest ∷ files_named number store.now) }
{
    let mut files = manifest_alone(alloc, store.hashing())?;
    add_named(alloc, number, store, &mut files)?;
    Ok(files)
}

fn manifest_alone(alloc: Global, hashing: SeededHash) -> Result<FileNames, NoMemory>
    ensures { IfOk result (λ files. files.keys ≡ manifest ∷ []) }
{
    let mut files = IndexSet::with_hasher(alloc, hashing);
    let manifest = FileName::manifest(alloc)?;
    files.insert(manifest)?;
    Ok(files)
}

/// Adds the files that the rows name.
fn add_named(
    alloc: Global,
    number: u32,
    store: &Store,
    files: &mut FileNames,
) -> Result<(), NoMemory>
    requires { files.old.keys ≡ manifest ∷ [] }
    ensures { OnOk result (files.new.keys ≡ manifest ∷ files_named number store.now) }
{
    let folder = folder_iri(alloc, number)?;
    let plugins = plugins(alloc, store)?;
    add_see_also(alloc, &folder, &plugins, store, files)
}

/// Adds the files that the rows `rdfs:seeAlso` name.
fn add_see_also(
    alloc: Global,
    folder: &Text,
    plugins: &Terms,
    store: &Store,
    files: &mut FileNames,
) -> Result<(), NoMemory>
    ensures { OnOk result (files.new.keys ≡ files.old.keys ++ each_once files.old.keys (filter_map (file_of plugins.now.keys folder.now) (filter (agrees None (Some see_also) None) store.now))) }
{
    let see_also = iri(alloc, Word::RdfsSeeAlso)?;
    add_files(
        alloc,
        folder,
        plugins,
        with_predicate(store, &see_also),
        files,
    )
}

/// The rows with this predicate. A function of its own gives both references one lifetime.
fn with_predicate<'a>(store: &'a Store, predicate: &'a Term) -> Matching<'a>
    ensures { result ≡ filter (agrees None (Some predicate.now) None) store.now }
{
    store.matching(None, Some(predicate), None)
}

/// Adds the files that these rows name.
fn add_files(
    alloc: Global,
    folder: &Text,
    plugins: &Terms,
    rows: Matching<'_>,
    files: &mut FileNames,
) -> Result<(), NoMemory>
    ensures { OnOk result (files.new.keys ≡ files.old.keys ++ each_once files.old.keys (filter_map (file_of plugins.now.keys folder.now) rows.entry)) }
{
    for row in rows {
        add_file(alloc, folder, plugins, row, files)?;
    }
    Ok(())
}

fn add_file(
    alloc: Global,
    folder: &Text,
    plugins: &Terms,
    row: &Triple,
    files: &mut FileNames,
) -> Result<(), NoMemory>
    ensures { OnOk result (files.new.keys ≡ joined files.old.keys (file_of plugins.now.keys folder.now row.now)) }
{
    if let Some(file) = file_of(alloc, folder, plugins, row)? {
        files.insert(file)?;
    }
    Ok(())
}

/// The subjects of class `lv2:Plugin`, so that each is found without going through the rows.
fn plugins(alloc: Global, store: &Store) -> Result<Terms, NoMemory>
    ensures { IfOk result (λ plugins. (s : Term) → list_any (same_term s) plugins.keys ≡ is_a store.now s Lv2Plugin) }
{
    let mut plugins = IndexSet::with_hasher(alloc, store.hashing());
    add_plugins(alloc, store, &mut plugins)?;
    Ok(plugins)
}

fn add_plugins(alloc: Global, store: &Store, plugins: &mut Terms) -> Result<(), NoMemory>
    requires { plugins.old.keys ≡ [] }
    ensures { OnOk result ((s : Term) → list_any (same_term s) plugins.new.keys ≡ is_a store.now s Lv2Plugin) }
{
    let class = iri(alloc, Word::Lv2Plugin)?;
    let is_a = iri(alloc, Word::RdfType)?;
    add_subjects(store.matching(None, Some(&is_a), Some(&class)), plugins)
}

/// Adds the subjects of these rows.
fn add_subjects(rows: Matching<'_>, terms: &mut Terms) -> Result<(), NoMemory>
    ensures { OnOk result ((s : Term) → list_any (same_term s) terms.new.keys ≡ list_any (same_term s) (terms.old.keys ++ map subject rows.entry)) }
{
    for row in rows {
        terms.insert(row.s.clone()?)?;
    }
    Ok(())
}

/// The file that a row names, if its subject is one of the plug-ins.
fn file_of(
    alloc: Global,
    folder: &Text,
    plugins: &Terms,
    row: &Triple,
) -> Result<Option<FileName>, NoMemory>
    ensures { IfOk result (λ file. file ≡ file_of plugins.now.keys folder.now row.now) }
{
    match &row.o {
        Term::Iri(iri) if plugins.contains(&row.s) => FileName::of_iri(alloc, folder, iri),
        _ => Ok(None),
    }
}

fn iri(alloc: Global, word: Word) -> Result<Term, NoMemory>
    ensures { IfOk result (λ term. term ≡ Iri (iri_of word)) }
{
    Ok(Term::Iri(Text::from_str(alloc, word.iri())?))
}

/// The IRI of the folder of the bundle with this number.
pub(crate) fn folder_iri(alloc: Global, number: u32) -> Result<Text, NoMemory>
    ensures { IfOk result (λ iri. iri ≡ folder_iri number) }
{
    let text = format!(in alloc; "file:///bundle/{number}/")?;
    Text::from_str(alloc, &text)
}
