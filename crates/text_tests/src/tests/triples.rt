//! A store of triples.
ghost use Rattle.std.specs.Prelude.{◌≡◌, ◌≤◌, ◌<◌, ◌^◌, IfOk};
ghost use Rattle.triple_store.specs.Triples.{blanks_of_term, blanks_of_triple};

use crate::tests::assert_text;
use lv_base::{NoMemory, Text};
use std::alloc::Global;
use std::process::Abort;
use std::test::Fail;
use triple_store::{Store, Term, Triple};

/// `_:s <urn:p> _:o .`
fn triple(alloc: Global, s: u32, o: u32) -> Result<Triple, NoMemory>
    requires s { s < 100 }
    requires o { o < 100 }
    ensures { IfOk result (λ t. blanks_of_triple t ≤ 2 ^ 31) }
{
    let p = Text::from_str(alloc, "urn:p")?;
    Ok(Triple {
        s: Term::Blank(s),
        p: Term::Iri(p),
        o: Term::Blank(o),
    })
}

/// `"a"@lang`
fn tagged_text(alloc: Global, lang: &str) -> Result<Term, NoMemory>
    ensures { IfOk result (λ t. blanks_of_term t ≡ 0) }
{
    let text = Text::from_str(alloc, "a")?;
    let datatype = Text::from_str(alloc, "urn:string")?;
    let lang = Text::from_str(alloc, lang)?;
    Ok(Term::Literal {
        text,
        datatype,
        lang,
    })
}

/// `_:0 <urn:p> "a"@lang .`
fn tagged(alloc: Global, lang: &str) -> Result<Triple, NoMemory>
    ensures { IfOk result (λ t. blanks_of_triple t ≤ 2 ^ 31) }
{
    let p = Text::from_str(alloc, "urn:p")?;
    let o = tagged_text(alloc, lang)?;
    Ok(Triple {
        s: Term::Blank(0),
        p: Term::Iri(p),
        o,
    })
}

fn add_tagged(alloc: Global, store: &mut Store, langs: &str) -> Result<(), Fail> {
    for lang in langs.split_whitespace() {
        store.add(tagged(alloc, lang)?)?;
    }
    Ok(())
}

/// Rows from one blank node to those below another.
fn add_rows(alloc: Global, store: &mut Store, s: u32, below: u32) -> Result<(), Fail>
    requires s { s < 100 }
    requires below { below ≤ 100 }
{
    for o in 0..below {
        store.add(triple(alloc, s, o)?)?;
    }
    Ok(())
}

/// From 0 to 0, 1 and 2, and from 1 to 0.
fn add_four(alloc: Global, store: &mut Store) -> Result<(), Fail> {
    add_rows(alloc, store, 0, 3)?;
    add_rows(alloc, store, 1, 1)
}

fn push_row(alloc: Global, text: &mut String, row: &Triple) -> Result<(), Fail> {
    if let (Term::Blank(s), Term::Blank(o)) = (&row.s, &row.o) {
        let word = format!(in alloc; "{s} {o},")?;
        text.push_str(word.as_str())?;
    }
    Ok(())
}

fn push_rows<'x>(
    alloc: Global,
    text: &mut String,
    store: &'x Store,
    s: Option<&'x Term>,
    o: Option<&'x Term>,
) -> Result<(), Fail> {
    for row in store.matching(s, None, o) {
        push_row(alloc, text, row)?;
    }
    Ok(())
}

fn rows_from(alloc: Global, store: &Store, node: &Term) -> Result<String, Fail> {
    let mut text = String::new(alloc);
    push_rows(alloc, &mut text, store, Some(node), None)?;
    Ok(text)
}

fn rows_to(alloc: Global, store: &Store, node: &Term) -> Result<String, Fail> {
    let mut text = String::new(alloc);
    push_rows(alloc, &mut text, store, None, Some(node))?;
    Ok(text)
}

fn assert_count(rt: &impl Abort, store: &Store, count: u32, blanks: u32) {
    assert_eq!(rt; (store.count(), store.blanks()), (count, blanks));
}

fn add_each_once(rt: &impl Abort, alloc: Global, store: &mut Store) -> Result<(), Fail> {
    add_tagged(alloc, store, "en de en")?;
    assert_count(rt, store, 2, 1);
    Ok(())
}

#[test]
fn adds_each_triple_once(rt: HostRuntime) -> Result<(), Fail> {
    let mut store = Store::new(rt.alloc());
    add_each_once(&rt, rt.alloc(), &mut store)
}

// The further rows of a subject are looked up by a hash: each still comes once.
fn add_late_rows_twice(rt: &impl Abort, alloc: Global, store: &mut Store) -> Result<(), Fail> {
    add_rows(alloc, store, 0, 40)?;
    add_rows(alloc, store, 0, 40)?;
    assert_count(rt, store, 40, 40);
    Ok(())
}

#[test]
fn adds_each_late_row_once(rt: HostRuntime) -> Result<(), Fail> {
    let mut store = Store::new(rt.alloc());
    add_late_rows_twice(&rt, rt.alloc(), &mut store)
}

fn assert_from(rt: &impl Abort, alloc: Global, store: &Store, node: &Term) -> Result<(), Fail> {
    let text = rows_from(alloc, store, node)?;
    assert_text(rt, text.as_str(), "0 0,0 1,0 2,");
    Ok(())
}

fn assert_to(rt: &impl Abort, alloc: Global, store: &Store, node: &Term) -> Result<(), Fail> {
    let text = rows_to(alloc, store, node)?;
    assert_text(rt, text.as_str(), "0 0,1 0,");
    Ok(())
}

fn find_rows(rt: &impl Abort, alloc: Global, store: &Store, node: &Term) -> Result<(), Fail> {
    assert_from(rt, alloc, store, node)?;
    assert_to(rt, alloc, store, node)
}

fn add_and_find(rt: &impl Abort, alloc: Global, store: &mut Store) -> Result<(), Fail> {
    add_four(alloc, store)?;
    find_rows(rt, alloc, store, &Term::Blank(0))
}

#[test]
fn finds_rows(rt: HostRuntime) -> Result<(), Fail> {
    let mut store = Store::with_seed(rt.alloc(), 7);
    add_and_find(&rt, rt.alloc(), &mut store)
}

fn cut_and_add(rt: &impl Abort, alloc: Global, store: &mut Store) -> Result<(), Fail> {
    add_four(alloc, store)?;
    assert_eq!(rt; store.rows().len(), 4);
    store.cut(1);
    assert_count(rt, store, 1, 1);
    add_four(alloc, store)?;
    assert_count(rt, store, 4, 3);
    Ok(())
}

#[test]
fn cuts_and_adds_again(rt: HostRuntime) -> Result<(), Fail> {
    let mut store = Store::new(rt.alloc());
    cut_and_add(&rt, rt.alloc(), &mut store)
}
