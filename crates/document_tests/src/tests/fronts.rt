//! Each front of a document.

ghost use Rattle.std.specs.Prelude.{◌≡◌, true, is_some};
ghost use Rattle.iri_resolve.specs.Components.{scheme_of};

use crate::tests::reading::{base, read_two};
use lv_base::{NoMemory, Text};
use std::alloc::Global;
use std::process::Abort;
use std::test::Fail;

/// Every form of statement, subject, verb, object and literal.
const WHOLE: &[u8] = b"@prefix t: <urn:t:> . PREFIX : <u#>
@base <http://a/> . BASE <\\u00e9/> # base
t:s a t:o ; <p> <o> , _:a , [] , [ :q 1 ; ] , ( ) , ( 2.5 ( -1e3 ) ) ;; .
_:a :p 'a' , \"b\\n\" , '''c'd''' , \"\"\"e\"f\"\"\"@en-GB , 'g'^^t:n , true , false .
[ :p .5 ] . [ :p +1 ] :q '' . ( 1 ) :p t:a%20\\-b . : : : .";

/// What bytes add where a triple is, `None` where they are refused.
fn added(rt: &impl Abort, alloc: Global, base: &Text, bytes: &[u8]) -> Option<u32>
    requires { is_some (scheme_of base.now) ≡ true }
{
    let (first, second, rows) = read_two(alloc, base, b"<urn:x> <urn:y> <urn:z> .", bytes);
    assert_eq!(rt; first, Ok(1));
    assert_eq!(rt; rows.checked_sub(1), Some(second.unwrap_or(0)));
    second.ok()
}

/// Each front is read or refused, and a longer one has no fewer triples.
#[test]
fn every_front(rt: HostRuntime) -> Result<(), Fail> {
    let base = base(rt.alloc())?;
    let mut most = 0;
    for length in 0..=WHOLE.len() {
        if let Some(count) = added(&rt, rt.alloc(), &base, &WHOLE[..length]) {
            assert!(rt; most <= count, "at {length}");
            most = count;
        }
    }
    assert_eq!(rt; most, 28);
    Ok(())
}

/// How many rows two documents leave in one store.
fn rows_of(alloc: Global, first: &[u8], second: &[u8]) -> Result<u32, NoMemory> {
    let base = base(alloc)?;
    let (_, _, rows) = read_two(alloc, &base, first, second);
    Ok(rows)
}

/// Blank nodes of a second document aren't those of the first.
#[test]
fn two_documents(rt: HostRuntime) -> Result<(), Fail> {
    let document = b"_:a <p> 1 . <s> <p> 1 .";
    let rows = rows_of(rt.alloc(), document, document)?;
    assert_eq!(rt; rows, 3);
    Ok(())
}
