ghost use Rattle.std.specs.Prelude.{◌≡◌, ◌+◌, ◌≤◌, ◌<◌, ◌↔◌, length, IsTrue, IsSome, IfSome, position};
ghost use Rattle.std.specs.List.{position_or_len};
ghost use Rattle.iri_resolve.specs.Components as spec;
ghost use Rattle.iri_resolve.specs.Components.{parts_of, AreWithin, ends_scheme, ends_authority, ends_path, ends_query, end_from, scheme_of, authority_from, query_from, fragment_from, IsWithin};

use memchr::{memchr, memchr2, memchr3};

/// Where the components of a reference lie, each from its first byte up to the place after its last: RFC 3986, appendix B.
///
/// `None` says that a component isn't there, which differs from an empty one. The path is always there.
#[derive(Clone, Copy)]
pub struct Parts {
    /// Without its `:`.
    pub scheme: Option<(usize, usize)>,
    /// Without the `//` before it.
    pub authority: Option<(usize, usize)>,
    pub path: Option<(usize, usize)>,
    /// Without its `?`.
    pub query: Option<(usize, usize)>,
    /// Without its `#`.
    pub fragment: Option<(usize, usize)>,
}

/// The components of any text, by the expression of RFC 3986, appendix B. A scheme is what stands before the first `:`, where that
/// isn't empty and has no `/`, `?` or `#`.
///
/// Of `http://a/b?q` the scheme is `(0, 4)`, the authority `(7, 8)`, the path `(8, 10)` and the query `(11, 12)`.
pub fn split(text: &[u8]) -> Parts
    ensures value { result ≡ parts_of text.now }
    ensures within { AreWithin text.now result }
{
    let scheme = scheme_in(text);
    let after_scheme = match scheme {
        Some((_, end)) => end + 1,
        None => 0,
    };
    let authority = authority_at(text, after_scheme);
    let start = end_or(authority, after_scheme);
    let end = start + path_len(&text[start..]);
    let query = query_at(text, end);
    let fragment = fragment_at(text, end_or(query, end));
    Parts {
        scheme,
        authority,
        path: Some((start, end)),
        query,
        fragment,
    }
}

/// Whether a text has a scheme, so that it can be a base.
///
/// `has_scheme(b"urn:x")` is true, and `has_scheme(b"/a:b")` false.
pub fn has_scheme(text: &[u8]) -> bool
    ensures { IsTrue result ↔ IsSome (scheme_of text.now) }
{
    scheme_in(text).is_some()
}

fn scheme_in(text: &[u8]) -> Option<(usize, usize)>
    ensures value { result ≡ scheme_of text.now }
    ensures within { IfSome result (λ span. (span.0 ≡ 0) × (span.1 < length text.now)) }
{
    let end = scheme_end(text);
    if end > 0 && end < text.len() && text[end] == b':' {
        Some((0, end))
    } else {
        None
    }
}

fn authority_at(text: &[u8], at: usize) -> Option<(usize, usize)>
    requires { at ≤ length text.now }
    ensures value { result ≡ authority_from text.now at }
    ensures within { IsWithin text.now result }
{
    if text[at..].starts_with(b"//") {
        let start = at + 2;
        Some((start, start + authority_len(&text[start..])))
    } else {
        None
    }
}

fn query_at(text: &[u8], at: usize) -> Option<(usize, usize)>
    requires { at ≤ length text.now }
    ensures value { result ≡ query_from text.now at }
    ensures within { IsWithin text.now result }
{
    if at < text.len() && text[at] == b'?' {
        let start = at + 1;
        Some((start, start + query_len(&text[start..])))
    } else {
        None
    }
}

fn fragment_at(text: &[u8], at: usize) -> Option<(usize, usize)>
    requires { at ≤ length text.now }
    ensures value { result ≡ fragment_from text.now at }
    ensures within { IsWithin text.now result }
{
    if at < text.len() && text[at] == b'#' {
        Some((at + 1, text.len()))
    } else {
        None
    }
}

#[tactic(auto, using(crate::proofs::First::position_or_end))]
fn scheme_end(text: &[u8]) -> usize
    ensures { result ≡ position_or_len ends_scheme text.now }
{
    scheme_mark(text).unwrap_or(text.len())
}

fn scheme_mark(text: &[u8]) -> Option<usize>
    ensures { result ≡ position ends_scheme text.now }
{
    text.iter()
        .position(|byte| matches!(byte, b':' | b'/' | b'?' | b'#'))
}

fn authority_len(rest: &[u8]) -> usize
    ensures value { result ≡ position_or_len ends_authority rest.now }
    ensures within { result ≤ length rest.now }
{
    memchr3(b'/', b'?', b'#', rest).unwrap_or(rest.len())
}

fn path_len(rest: &[u8]) -> usize
    ensures value { result ≡ position_or_len ends_path rest.now }
    ensures within { result ≤ length rest.now }
{
    memchr2(b'?', b'#', rest).unwrap_or(rest.len())
}

fn query_len(rest: &[u8]) -> usize
    ensures value { result ≡ position_or_len ends_query rest.now }
    ensures within { result ≤ length rest.now }
{
    memchr(b'#', rest).unwrap_or(rest.len())
}

fn end_or(part: Option<(usize, usize)>, at: usize) -> usize
    ensures { result ≡ spec.end_or part at }
{
    match part {
        Some((_, end)) => end,
        None => at,
    }
}
