//! Triples in their order.

ghost use Rattle.std.specs.Prelude.{◌≡◌, true, is_some};
ghost use Rattle.iri_resolve.specs.Components.{scheme_of};

use crate::tests::reading::{base, read_new};
use lv_base::{Bytes, NoMemory, Text};
use std::alloc::Global;
use std::test::Fail;
use triple_list::push_listing;
use triple_store::Store;
use turtle_read::read;

/// A base, a prefix, an escape, a tag, a comment, and a collection of two numbers.
const FOUR_LINES: &[u8] = b"@base <http://e.x/d/> . # not http://a/
@prefix p: <q#> .
<a\\u0041> p:b%20c\\,d \"x\"@en ;; .
[] p:l ( 1 2.5 ) .
";

const LISTING: &str = concat!(
    "<http://e.x/d/aA> <http://e.x/d/q#b%20c,d> \"x\"@en\n",
    "_:1 <http://www.w3.org/1999/02/22-rdf-syntax-ns#first> \"1\"^^<http://www.w3.org/2001/XMLSchema#integer>\n",
    "_:1 <http://www.w3.org/1999/02/22-rdf-syntax-ns#rest> _:2\n",
    "_:2 <http://www.w3.org/1999/02/22-rdf-syntax-ns#first> \"2.5\"^^<http://www.w3.org/2001/XMLSchema#decimal>\n",
    "_:2 <http://www.w3.org/1999/02/22-rdf-syntax-ns#rest> <http://www.w3.org/1999/02/22-rdf-syntax-ns#nil>\n",
    "_:0 <http://e.x/d/q#l> _:1\n",
    "triples 6\n",
);

/// The triples of a document.
fn listing(alloc: Global, base: &Text, bytes: &[u8]) -> Result<Bytes, NoMemory>
    requires { is_some (scheme_of base.now) ≡ true }
{
    let mut listing = Bytes::new(alloc);
    let mut store = Store::new(alloc);
    let _ = read(alloc, base, bytes, &mut store);
    push_listing(&mut listing, store.rows())?;
    Ok(listing)
}

#[test]
fn triples_in_order(rt: HostRuntime) -> Result<(), Fail> {
    let base = base(rt.alloc())?;
    let listing = listing(rt.alloc(), &base, FOUR_LINES)?;
    assert!(rt; listing.as_slice() == LISTING.as_bytes());
    Ok(())
}

/// A byte order mark and a comment are no triples.
#[test]
fn nothing(rt: HostRuntime) -> Result<(), Fail> {
    let base = base(rt.alloc())?;
    let (result, rows) = read_new(rt.alloc(), &base, b"\xEF\xBB\xBF # nothing");
    assert_eq!(rt; result, Ok(0));
    assert_eq!(rt; rows, 0);
    Ok(())
}
