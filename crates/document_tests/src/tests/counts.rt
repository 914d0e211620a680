//! How many triples a document has.

ghost use Rattle.std.specs.Prelude.{◌≡◌, true, is_some};
ghost use Rattle.iri_resolve.specs.Components.{scheme_of};

use crate::tests::reading::{base, read_new};
use lv_base::Text;
use std::alloc::Global;
use std::process::Abort;
use std::test::Fail;

/// In each line the number of a document's triples, and the document.
const COUNTS: &str = concat!(
    "1 @prefix t: <urn:t:> . t:s t:p t:o .\n",
    "2 prefix t: <urn:t:> PREFIX : <urn:u:> t:s :p : , t:o .\n",
    "1 @base <http://a/> . <s> <p> <o> , <http://a/o> .\n",
    "2 BASE <http://a/> <s> <p> <o> ; <p> <q> .\n",
    "8 <s> a <t> ; <p> 1, +2, -3.5, .5, 6.02e23, true, false ;; .\n",
    "5 <s> <p> \"a\", 'b', \"\"\"c\"d\"\"\", '''e'f''', \"g\"@en-GB .\n",
    "3 PREFIX t: <urn:t:> <s> <p> \"1\"^^<urn:n>, '1'^^t:n, \"1\" .\n",
    "1 <s> <p> () .\n",
    "3 <s> <p> (1) .\n",
    "9 <s> <p> (1 (2) []) .\n",
    "4 () <p> 1 . (1) <p> 2 .\n",
    "5 [] <p> [] . [ <p> 1 ] . [ <p> 1 ] <q> [ <r> 2 ; ] .\n",
    "2 _:a <p> _:b . _:a <p> _:b . _:b <p> _:a .\n",
    "1 PREFIX t: <urn:t:> t:a%20b t:c\\,d t:e:f.g .\n",
    "1 <s> <p> <o> , <o> .\n",
);

fn assert_counts(rt: &impl Abort, alloc: Global, base: &Text, line: &str)
    requires { is_some (scheme_of base.now) ≡ true }
{
    let (count, document) = line.split_once(' ').unwrap_or(("", ""));
    let (result, _) = read_new(alloc, base, document.as_bytes());
    assert_eq!(rt; result.ok(), count.parse::<u32>().ok(), "{line}");
}

#[test]
fn counts(rt: HostRuntime) -> Result<(), Fail> {
    let base = base(rt.alloc())?;
    for line in COUNTS.lines() {
        assert_counts(&rt, rt.alloc(), &base, line);
    }
    Ok(())
}
