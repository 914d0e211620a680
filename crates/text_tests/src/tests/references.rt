use iri_resolve::{IriFault, bad_char, has_scheme, is_excluded, resolve, split};
use lv_base::Text;
use std::alloc::Global;
use std::test::Fail;

/// Whether a reference, seen from the base, names the target.
fn names(alloc: Global, base: &Text, reference: &str, target: &str) -> bool {
    match resolve(alloc, base, reference.as_bytes()) {
        Ok(found) => found.as_str() == target,
        Err(_) => false,
    }
}

/// The examples of RFC 3986, sections 5.4.1 and 5.4.2, seen from `http://a/b/c/d;p?q`: a reference, a space and its target.
const EXAMPLES: &str = "g:h g:h
g http://a/b/c/g
./g http://a/b/c/g
g/ http://a/b/c/g/
/g http://a/g
//g http://g
?y http://a/b/c/d;p?y
g?y http://a/b/c/g?y
#s http://a/b/c/d;p?q#s
g#s http://a/b/c/g#s
g?y#s http://a/b/c/g?y#s
;x http://a/b/c/;x
g;x http://a/b/c/g;x
g;x?y#s http://a/b/c/g;x?y#s
 http://a/b/c/d;p?q
. http://a/b/c/
./ http://a/b/c/
.. http://a/b/
../ http://a/b/
../g http://a/b/g
../.. http://a/
../../ http://a/
../../g http://a/g
../../../g http://a/g
../../../../g http://a/g
/./g http://a/g
/../g http://a/g
g. http://a/b/c/g.
.g http://a/b/c/.g
g.. http://a/b/c/g..
..g http://a/b/c/..g
./../g http://a/b/g
./g/. http://a/b/c/g/
g/./h http://a/b/c/g/h
g/../h http://a/b/c/h
g;x=1/./y http://a/b/c/g;x=1/y
g;x=1/../y http://a/b/c/y
g?y/./x http://a/b/c/g?y/./x
g?y/../x http://a/b/c/g?y/../x
g#s/./x http://a/b/c/g#s/./x
g#s/../x http://a/b/c/g#s/../x
http:g http:g";

fn is_example(alloc: Global, base: &Text, line: &str) -> bool {
    match line.split_once(' ') {
        Some((reference, target)) => names(alloc, base, reference, target),
        None => false,
    }
}

#[test]
fn resolves_the_examples(rt: HostRuntime) -> Result<(), Fail> {
    let base = Text::from_str(rt.alloc(), "http://a/b/c/d;p?q")?;
    for line in EXAMPLES.lines() {
        assert!(rt; is_example(rt.alloc(), &base, line), "{line}");
    }
    Ok(())
}

/// An authority with an empty path, a base with a fragment and an empty query, and rootless paths: a base, a reference and its
/// target, each after a space.
const EDGES: &str = "http://a g http://a/g
http://a/b?#f  http://a/b?
http://a/b g? http://a/g?
urn:a g urn:g
urn:a/b ../../g urn:/g";

fn is_edge(alloc: Global, line: &str) -> bool {
    let Some((base, example)) = line.split_once(' ') else {
        return false;
    };
    match Text::from_str(alloc, base) {
        Ok(base) => is_example(alloc, &base, example),
        Err(_) => false,
    }
}

#[test]
fn resolves_at_the_edges(rt: HostRuntime) {
    for line in EDGES.lines() {
        assert!(rt; is_edge(rt.alloc(), line), "{line}");
    }
}

/// Whether a reference that holds a space is refused, at it where there is a place.
fn is_refused(alloc: Global, base: &Text, place: Option<usize>) -> bool {
    match resolve(alloc, base, b"a/b c") {
        Err(IriFault::NotAbsoluteBase) => place.is_none(),
        Err(IriFault::BadChar(at)) => place == Some(at),
        _ => false,
    }
}

#[test]
fn judges_the_base_first(rt: HostRuntime) -> Result<(), Fail> {
    let relative = Text::from_str(rt.alloc(), "//a/b")?;
    assert!(rt; is_refused(rt.alloc(), &relative, None));
    Ok(())
}

#[test]
fn judges_the_characters(rt: HostRuntime) -> Result<(), Fail> {
    let base = Text::from_str(rt.alloc(), "http://a/")?;
    assert!(rt; is_refused(rt.alloc(), &base, Some(3)));
    assert!(rt; bad_char(b"ab\xff <") == Some(2) && is_excluded(b'\\') && !is_excluded(b'%'));
    Ok(())
}

#[test]
fn splits(rt: HostRuntime) {
    let parts = split(b"http://a/b?q#");
    assert!(rt; parts.scheme == Some((0, 4)) && parts.authority == Some((7, 8)));
    assert!(rt;
        parts.path == Some((8, 10))
            && parts.query == Some((11, 12))
            && parts.fragment == Some((13, 13))
    );
    assert!(rt; has_scheme(b"a:") && !has_scheme(b":a"));
}
