use super::ended::{Ended, Fails, hold, run};
use lv_base::{Bytes, NoMemory};
use std::alloc::Global;
use std::process::Abort;

fn check(
    alloc: Global,
    word: &str,
    files: Vec<(Bytes, Bytes)>,
    fails: Fails,
) -> Result<Ended, NoMemory> {
    run(alloc, &["check", word], files, fails)
}

// The file of a bundle in the folder `b` that has no other.
fn manifest_alone(alloc: Global, manifest: &str) -> Result<Vec<(Bytes, Bytes)>, NoMemory> {
    let mut files = Vec::new(alloc);
    hold(&mut files, alloc, "b/manifest.ttl", manifest)?;
    Ok(files)
}

// A bundle of a manifest alone, where nothing fails.
fn check_manifest(alloc: Global, manifest: &str) -> Result<Ended, NoMemory> {
    let files = manifest_alone(alloc, manifest)?;
    check(alloc, "b", files, Fails::NONE)
}

const WORKED: &str = concat!(
    "@base <http://e.x/d/> .\n",
    "@prefix p: <q#> .\n",
    "<a\\u0041> p:b%20c\\,d \"x\"@en ;; .\n",
    "[] p:l ( 1 2.5 ) .\n",
);

const WORKED_LISTING: &str = concat!(
    "<http://e.x/d/aA> <http://e.x/d/q#b%20c,d> \"x\"@en\n",
    "_:1 <http://www.w3.org/1999/02/22-rdf-syntax-ns#first> \"1\"^^<http://www.w3.org/2001/XMLSchema#integer>\n",
    "_:1 <http://www.w3.org/1999/02/22-rdf-syntax-ns#rest> _:2\n",
    "_:2 <http://www.w3.org/1999/02/22-rdf-syntax-ns#first> \"2.5\"^^<http://www.w3.org/2001/XMLSchema#decimal>\n",
    "_:2 <http://www.w3.org/1999/02/22-rdf-syntax-ns#rest> <http://www.w3.org/1999/02/22-rdf-syntax-ns#nil>\n",
    "_:0 <http://e.x/d/q#l> _:1\n",
    "triples 6\n",
    "plugins 0\n",
);

#[test]
fn a_collection_and_a_tag(rt: HostRuntime) -> Result<(), NoMemory> {
    let ended = check_manifest(rt.alloc(), WORKED)?;
    assert!(rt; ended.is(0, WORKED_LISTING));
    Ok(())
}

// A manifest alone is refused with this status and this line.
fn refused<R: Abort + AllocGlobal>(
    rt: &R,
    manifest: &str,
    status: u8,
    line: &str,
) -> Result<(), NoMemory> {
    let ended = check_manifest(rt.alloc(), manifest)?;
    assert!(rt; ended.is(status, line), "at {line:?}");
    Ok(())
}

// Documents that break off, and one that goes on with a word that no document has there.
#[test]
fn no_documents(rt: HostRuntime) -> Result<(), NoMemory> {
    refused(
        &rt,
        "@prefix a: <urn:x:>\na:b a a:c .",
        5,
        "lv2fx: 5 turtle b/manifest.ttl at 20 syntax\n",
    )?;
    refused(
        &rt,
        "@prefix a: <urn:x:>",
        5,
        "lv2fx: 5 turtle b/manifest.ttl at 19 syntax\n",
    )?;
    Ok(())
}

// A manifest with so many brackets one in another.
fn nested(alloc: Global, depth: usize) -> Result<String, NoMemory> {
    let mut manifest = String::from_str(alloc, "<urn:s> <urn:p> ")?;
    for _ in 0..depth {
        manifest.push('(')?;
    }
    Ok(manifest)
}

// The 257th bracket is one too many.
#[test]
fn depth(rt: HostRuntime) -> Result<(), NoMemory> {
    let manifest = nested(rt.alloc(), 257)?;
    refused(
        &rt,
        manifest.as_str(),
        5,
        "lv2fx: 5 turtle b/manifest.ttl at 272 depth\n",
    )?;
    Ok(())
}

// No file is there: the word that names a folder, and the line that says which file was looked for.
fn missing<R: Abort + AllocGlobal>(rt: &R, word: &str, line: &str) -> Result<(), NoMemory> {
    let ended = check(rt.alloc(), word, Vec::new(rt.alloc()), Fails::NONE)?;
    assert!(rt; ended.is(2, line), "of {word:?}");
    Ok(())
}

#[test]
fn folders_without_a_manifest(rt: HostRuntime) -> Result<(), NoMemory> {
    missing(&rt, "b", "lv2fx: 2 missing b/manifest.ttl\n")?;
    missing(&rt, "b/", "lv2fx: 2 missing b/manifest.ttl\n")?;
    missing(&rt, "b//", "lv2fx: 2 missing b//manifest.ttl\n")?;
    missing(&rt, "/", "lv2fx: 2 missing /manifest.ttl\n")?;
    missing(&rt, "", "lv2fx: 2 missing /manifest.ttl\n")?;
    Ok(())
}

#[test]
fn a_fault_of_the_vault(rt: HostRuntime) -> Result<(), NoMemory> {
    let fails = Fails {
        vault: Some(0),
        sink: None,
    };
    let files = manifest_alone(rt.alloc(), "")?;
    let ended = check(rt.alloc(), "b", files, fails)?;
    assert!(rt; ended.is(3, "lv2fx: 3 read failed b/manifest.ttl\n"));
    Ok(())
}

const NO_SINK: Fails = Fails {
    vault: None,
    sink: Some(0),
};

#[test]
fn a_fault_of_the_sink(rt: HostRuntime) -> Result<(), NoMemory> {
    let files = manifest_alone(rt.alloc(), "")?;
    let ended = check(rt.alloc(), "b", files, NO_SINK)?;
    assert!(rt; ended.is(4, "lv2fx: 4 write failed -\n"));
    Ok(())
}

// Nothing is left to say where the line fails as well.
#[test]
fn a_line_that_fails(rt: HostRuntime) -> Result<(), NoMemory> {
    let ended = check(rt.alloc(), "b", Vec::new(rt.alloc()), NO_SINK)?;
    assert!(rt; ended.is(2, ""));
    Ok(())
}

const AMP_MANIFEST: &str = concat!(
    "@prefix lv2: <http://lv2plug.in/ns/lv2core#> .\n",
    "@prefix rdfs: <http://www.w3.org/2000/01/rdf-schema#> .\n",
    "\n",
    "<urn:lv2fx:amp> a lv2:Plugin ; lv2:binary <amp.so> ; rdfs:seeAlso <amp.ttl> .\n",
);

const AMP: &str = concat!(
    "@prefix lv2: <http://lv2plug.in/ns/lv2core#> .\n",
    "@prefix doap: <http://usefulinc.com/ns/doap#> .\n",
    "@prefix units: <http://lv2plug.in/ns/extensions/units#> .\n",
    "@prefix rdfs: <http://www.w3.org/2000/01/rdf-schema#> .\n",
    "@prefix rdf: <http://www.w3.org/1999/02/22-rdf-syntax-ns#> .\n",
    "\n",
    "<urn:lv2fx:amp>\n",
    "\ta lv2:Plugin , lv2:AmplifierPlugin ;\n",
    "\tdoap:name \"Amp\" , \"Verstärker\"@de ;\n",
    "\tdoap:license <http://opensource.org/licenses/isc> ;\n",
    "\tlv2:optionalFeature lv2:hardRTCapable ;\n",
    "\tlv2:port [\n",
    "\t\ta lv2:InputPort , lv2:ControlPort ;\n",
    "\t\tlv2:index 0 ; lv2:symbol \"gain\" ; lv2:name \"Gain\" , \"Pegel\"@de ;\n",
    "\t\tlv2:default 0.0 ; lv2:minimum -90.0 ; lv2:maximum 24.0 ;\n",
    "\t\tunits:unit units:db ;\n",
    "\t\tlv2:scalePoint [ rdfs:label \"+5\" ; rdf:value 5.0 ]\n",
    "\t] , [\n",
    "\t\ta lv2:InputPort , lv2:AudioPort ;\n",
    "\t\tlv2:index 1 ; lv2:symbol \"in\" ; lv2:name \"In\"\n",
    "\t] , [\n",
    "\t\ta lv2:OutputPort , lv2:AudioPort ;\n",
    "\t\tlv2:index 2 ; lv2:symbol \"out\" ; lv2:name \"Out\"\n",
    "\t] .\n",
);

const AMP_LINES: &str = concat!(
    "triples 34\n",
    "plugins 1\n",
    "plugin urn:lv2fx:amp 0 0\n",
    "port 0 gain input control\n",
    "port 1 in input audio\n",
    "port 2 out output audio\n",
);

fn amplifier(alloc: Global) -> Result<Vec<(Bytes, Bytes)>, NoMemory> {
    let mut files = manifest_alone(alloc, AMP_MANIFEST)?;
    hold(&mut files, alloc, "b/amp.ttl", AMP)?;
    Ok(files)
}

#[test]
fn an_amplifier(rt: HostRuntime) -> Result<(), NoMemory> {
    let files = amplifier(rt.alloc())?;
    let ended = check(rt.alloc(), "b", files, Fails::NONE)?;
    assert!(rt; ended.ends_in(AMP_LINES));
    Ok(())
}

#[test]
fn a_named_file_that_is_missing(rt: HostRuntime) -> Result<(), NoMemory> {
    refused(&rt, AMP_MANIFEST, 2, "lv2fx: 2 missing b/amp.ttl\n")?;
    Ok(())
}

// A manifest that says these things of a plug-in.
fn manifest_of(alloc: Global, statements: &str) -> Result<String, NoMemory> {
    let head = "@prefix lv2: <http://lv2plug.in/ns/lv2core#> .\n<urn:p> a lv2:Plugin ";
    let mut manifest = String::from_str(alloc, head)?;
    manifest.push_str(statements)?;
    manifest.push_str(" .\n")?;
    Ok(manifest)
}

// Statements on a plug-in break a rule.
fn broken<R: Abort + AllocGlobal>(rt: &R, statements: &str, line: &str) -> Result<(), NoMemory> {
    let manifest = manifest_of(rt.alloc(), statements)?;
    refused(rt, manifest.as_str(), 6, line)
}

#[test]
fn numbers_that_are_wrong(rt: HostRuntime) -> Result<(), NoMemory> {
    broken(
        &rt,
        "; lv2:port [ a lv2:InputPort , lv2:ControlPort ; lv2:index 0 ; lv2:symbol \"a\" ; lv2:name \"A\" ] , [ a lv2:InputPort , lv2:ControlPort ; lv2:index 2 ; lv2:symbol \"b\" ; lv2:name \"B\" ]",
        "lv2fx: 6 plugin urn:p gap 1\n",
    )?;
    broken(
        &rt,
        "; lv2:port [ a lv2:InputPort , lv2:ControlPort ; lv2:index 0 ; lv2:symbol \"a\" ; lv2:name \"A\" ] , [ a lv2:InputPort , lv2:ControlPort ; lv2:index 0 ; lv2:symbol \"b\" ; lv2:name \"B\" ]",
        "lv2fx: 6 plugin urn:p same-index 0\n",
    )?;
    Ok(())
}

#[test]
fn ports_that_are_wrong(rt: HostRuntime) -> Result<(), NoMemory> {
    broken(
        &rt,
        "; lv2:port [ a lv2:InputPort , lv2:ControlPort ; lv2:index 0 ; lv2:symbol \"2in\" ; lv2:name \"A\" ]",
        "lv2fx: 6 plugin urn:p bad-symbol 0\n",
    )?;
    broken(
        &rt,
        "; lv2:port [ a lv2:InputPort , lv2:ControlPort ; lv2:index 0 ; lv2:symbol \"a\" ; lv2:name \"A\" ] , [ a lv2:InputPort , <urn:odd> ; lv2:index 1 ; lv2:symbol \"b\" ; lv2:name \"B\" ]",
        "lv2fx: 6 plugin urn:p port-class 1\n",
    )?;
    Ok(())
}

#[test]
fn a_feature_that_is_required(rt: HostRuntime) -> Result<(), NoMemory> {
    broken(
        &rt,
        "; lv2:requiredFeature <urn:no>",
        "lv2fx: 6 plugin urn:p feature urn:no\n",
    )?;
    Ok(())
}

// Statements on a plug-in break no rule, and these lines are the last ones.
fn kept<R: Abort + AllocGlobal>(rt: &R, statements: &str, lines: &str) -> Result<(), NoMemory> {
    let manifest = manifest_of(rt.alloc(), statements)?;
    let ended = check_manifest(rt.alloc(), manifest.as_str())?;
    assert!(rt; ended.ends_in(lines), "at {lines:?}");
    Ok(())
}

#[test]
fn plugins_that_break_no_rule(rt: HostRuntime) -> Result<(), NoMemory> {
    kept(
        &rt,
        "; lv2:optionalFeature <urn:no>",
        "triples 2\nplugins 1\nplugin urn:p 0 0\n",
    )?;
    kept(
        &rt,
        "; lv2:port [ a lv2:InputPort , lv2:ControlPort ; lv2:index 0 ; lv2:symbol \"a\" ; lv2:name \"A\" ] , [ a lv2:InputPort , <urn:odd> ; lv2:index 1 ; lv2:symbol \"b\" ; lv2:name \"B\" ; lv2:portProperty lv2:connectionOptional ]",
        "plugin urn:p 0 0\nport 0 a input control\nport 1 b input unsupported\n",
    )?;
    Ok(())
}
