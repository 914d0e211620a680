//! Which files a bundle has, over vaults in memory.
use lv_base::{Bytes, NoMemory, Text};
use lv_outside::MemVault;
use session_load::{LoadFault, bundle, one_answer, some_answer, stays_inside};
use std::alloc::Global;
use std::process::Abort;
use std::test::Fail;
use triple_store::{Store, Term, Triple};

/// IRIs in a manifest, and the files that they name in the bundle 3, if any. Of an IRI as it stands dot segments go first.
const NAMES: &str = "file:///bundle/3/amp.ttl amp.ttl
file:///bundle/3/presets/warm.ttl presets/warm.ttl
file:///bundle/3/x%2Fy.ttl x/y.ttl
file:///bundle/3/a%20b%3Fc%23d%25.ttl a b?c#d%.ttl
file:///bundle/3/%C3%BC.ttl \u{FC}.ttl
file:///bundle/3/a%zz.ttl a%zz.ttl
file:///bundle/3/a%2 a%2
file:///bundle/3/%252E %2E
file:///bundle/3/..a ..a
file:///bundle/3/./a a
file:///bundle/3/
file:///bundle/3/..
file:///bundle/3/../1/amp.ttl
file:///bundle/3/..%2Fx
file:///bundle/3/a/..
file:///bundle/3/%2E
file:///bundle/3/a//b
file:///bundle/3//a
file:///bundle/3/a/
file:///bundle/3/a?x
file:///bundle/3/a#x
file:///bundle/3/%00
file:///bundle/3/%FF
file:///bundle/3/manifest.ttl
file:///bundle/1/amp.ttl
file:///bundle/03/amp.ttl
file:///bundle/3
http://lv2plug.in/amp.ttl";

const PREFIXES: &str =
    "@prefix lv2: <http://lv2plug.in/ns/lv2core#> . @prefix rdfs: <http://www.w3.org/2000/01/rdf-schema#> .";

/// A manifest's statements. `r` says of itself that it is a plug-in only behind its files, `n` never.
const STATEMENTS: &str =
    "<urn:p> a lv2:Plugin ; rdfs:seeAlso <b.ttl> . <urn:n> rdfs:seeAlso <n.ttl> . <urn:p> rdfs:seeAlso <http://lv2plug.in/amp.ttl>, <a.ttl>, <../x.ttl> . <urn:r> rdfs:seeAlso <b.ttl>, <c.ttl> . <urn:p> rdfs:seeAlso <manifest.ttl> ; <urn:other> <d.ttl> . <urn:r> a lv2:Plugin . <urn:n> a lv2:Port .";

const A: &str = "\namp.lv2/a.ttl <> <urn:q> <urn:a> .";

const B: &str = "\namp.lv2/b.ttl <> <urn:q> <urn:b> .";

const C: &str = "\namp.lv2/c.ttl <> <urn:q> <urn:c> .\nx.ttl <> <urn:q> <urn:x> .";

/// The files of lines that each have a path and a text.
fn stored(alloc: Global, lines: &str) -> Result<Vec<(Bytes, Bytes)>, NoMemory> {
    let mut files = Vec::new(alloc);
    for line in lines.lines() {
        if let Some((path, text)) = line.split_once(' ') {
            let path = Bytes::from_slice(alloc, path.as_bytes())?;
            let bytes = Bytes::from_slice(alloc, text.as_bytes())?;
            files.push((path, bytes))?;
        }
    }
    Ok(files)
}

/// What loading the bundle 3 in `amp.lv2` answers, where these calls fail.
fn load(alloc: Global, lines: &str, fails: &[u64]) -> Result<Store, LoadFault> {
    let files = stored(alloc, lines)?;
    let fails = fails.to_vec(alloc).map_err(|_| NoMemory)?;
    let mut vault = MemVault::new(alloc, files, fails);
    let path = Text::from_str(alloc, "amp.lv2")?;
    bundle(alloc, &path, 3, &mut vault)
}

fn push_subject(text: &mut String, row: &Triple) -> Result<(), Fail> {
    if let Term::Iri(iri) = &row.s {
        if let Some(name) = iri.as_str().strip_prefix("file:///bundle/3/") {
            text.push_str(" ")?;
            text.push_str(name)?;
        }
    }
    Ok(())
}

/// The number of rows, and the subjects that are files of the bundle.
fn store_text(alloc: Global, store: &Store) -> Result<String, Fail> {
    let mut text = format!(in alloc; "rows {}", store.count())?;
    for row in store.rows() {
        push_subject(&mut text, row)?;
    }
    Ok(text)
}

fn answer_text(alloc: Global, answer: &Result<Store, LoadFault>) -> Result<String, Fail> {
    match answer {
        Ok(store) => store_text(alloc, store),
        Err(fault) => Ok(format!(in alloc; "{fault}")?),
    }
}

fn shown(alloc: Global, lines: &str, fails: &[u64]) -> Result<String, Fail> {
    let answer = load(alloc, lines, fails);
    answer_text(alloc, &answer)
}

fn answers(rt: &impl Abort, alloc: Global, lines: &str, wanted: &str) -> Result<(), Fail> {
    let answer = shown(alloc, lines, &[])?;
    assert_eq!(rt; answer.as_str(), wanted, "{lines}");
    Ok(())
}

/// The line of a manifest with these statements.
fn manifest(alloc: Global, statements: &str) -> Result<String, Fail> {
    let prefixes = PREFIXES;
    Ok(format!(in alloc; "amp.lv2/manifest.ttl {prefixes} {statements}")?)
}

/// The line of a manifest that names this IRI.
fn manifest_with(alloc: Global, iri: &str) -> Result<String, Fail> {
    let statements = format!(in alloc; "<urn:p> a lv2:Plugin ; rdfs:seeAlso <{iri}> .")?;
    manifest(alloc, &statements)
}

/// The answer where this file is missing, or none is looked for.
fn answer_without(alloc: Global, name: &str) -> Result<String, Fail> {
    if name.is_empty() {
        return Ok(String::from_str(alloc, "rows 2")?);
    }
    Ok(format!(in alloc; "missing amp.lv2/{name}")?)
}

/// Asserts which file is looked for where a manifest names this IRI.
fn names(rt: &impl Abort, alloc: Global, iri: &str, name: &str) -> Result<(), Fail> {
    let lines = manifest_with(alloc, iri)?;
    let wanted = answer_without(alloc, name)?;
    answers(rt, alloc, &lines, &wanted)
}

#[test]
fn an_iri_names_a_file(rt: HostRuntime) -> Result<(), Fail> {
    for line in NAMES.lines() {
        let (iri, name) = line.split_once(' ').unwrap_or((line, ""));
        names(&rt, rt.alloc(), iri, name)?;
    }
    one_answer();
    some_answer();
    stays_inside();
    Ok(())
}

#[test]
fn a_manifest_that_is_missing(rt: HostRuntime) -> Result<(), Fail> {
    answers(
        &rt,
        rt.alloc(),
        "manifest.ttl .",
        "missing amp.lv2/manifest.ttl",
    )
}

#[test]
fn a_manifest_that_can_t_be_read(rt: HostRuntime) -> Result<(), Fail> {
    let answer = shown(rt.alloc(), "amp.lv2/manifest.ttl .", &[0])?;
    assert_eq!(rt; answer.as_str(), "read failed amp.lv2/manifest.ttl");
    Ok(())
}

#[test]
fn files_in_order_and_once(rt: HostRuntime) -> Result<(), Fail> {
    let alloc = rt.alloc();
    let mut lines = manifest(alloc, STATEMENTS)?;
    lines.push_str(A)?;
    lines.push_str(B)?;
    lines.push_str(C)?;
    answers(&rt, alloc, &lines, "rows 15 b.ttl a.ttl c.ttl")
}

#[test]
fn the_first_file_that_is_missing(rt: HostRuntime) -> Result<(), Fail> {
    let alloc = rt.alloc();
    let mut lines = manifest(alloc, STATEMENTS)?;
    lines.push_str(B)?;
    answers(&rt, alloc, &lines, "missing amp.lv2/a.ttl")
}

#[test]
fn the_first_file_that_is_no_document(rt: HostRuntime) -> Result<(), Fail> {
    let alloc = rt.alloc();
    let mut lines = manifest(alloc, STATEMENTS)?;
    lines.push_str("\namp.lv2/b.ttl  .")?;
    answers(&rt, alloc, &lines, "turtle amp.lv2/b.ttl: Syntax(1)")
}
