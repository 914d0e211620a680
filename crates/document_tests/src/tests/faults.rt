//! Why bytes are no document, and where.

ghost use Rattle.std.specs.Prelude.{◌≡◌, true, is_some};
ghost use Rattle.iri_resolve.specs.Components.{scheme_of};

use crate::tests::reading::{base, read_new};
use lv_base::Text;
use std::alloc::Global;
use std::process::Abort;
use std::test::Fail;

/// In each line the fault of bytes, and the bytes.
const FAULTS: &str = concat!(
    "Some(Lex(Unclosed(16))) <urn:s> <urn:p> \"ab\n",
    "Some(Lex(BadByte(12))) <urn:s> <urn p>\n",
    "Some(Syntax(8)) <urn:s> . \"ab\n",
    "Some(Syntax(16)) <urn:s> <urn:p> .\n",
    "Some(Syntax(17)) <urn:s> <urn:p> 1\n",
    "Some(Syntax(28)) <urn:s> <urn:p> [ <urn:q> 1 .\n",
    "Some(Syntax(0)) \"a\" <urn:p> 1 .\n",
    "Some(Syntax(8)) <urn:s> _:p 1 .\n",
    "Some(Syntax(20)) @prefix t: <urn:t:> <urn:s> <urn:p> 1 .\n",
    "Some(Syntax(19)) PREFIX t: <urn:t:> .\n",
    "Some(Syntax(0)) @Base <urn:t:> .\n",
    "Some(NoPrefix(8)) <urn:s> t:p 1 . @prefix t: <urn:t:> .\n",
    "Some(NoPrefix(20)) <urn:s> <urn:p> 1 , t: .\n",
    "Some(NoPrefix(21)) <urn:s> <urn:p> \"a\"^^t:n .\n",
    "Some(BadIri(16)) <urn:s> <urn:p> <a\\u0020> .\n",
    "Some(BadIri(6)) @base <\\u003c> .\n",
);

fn assert_fault(
    rt: &impl Abort,
    alloc: Global,
    base: &Text,
    fault: &str,
    bytes: &[u8],
) -> Result<(), Fail>
    requires { is_some (scheme_of base.now) ≡ true }
{
    let (result, rows) = read_new(alloc, base, bytes);
    assert_eq!(rt; rows, 0);
    let text = format!(in alloc; "{:?}", result.err())?;
    assert!(rt; text.as_str() == fault, "{fault}");
    Ok(())
}

#[test]
fn faults(rt: HostRuntime) -> Result<(), Fail> {
    let base = base(rt.alloc())?;
    for line in FAULTS.lines() {
        let (fault, bytes) = line.split_once(' ').unwrap_or(("", ""));
        assert_fault(&rt, rt.alloc(), &base, fault, bytes.as_bytes())?;
    }
    assert_fault(&rt, rt.alloc(), &base, "Some(Lex(NotUtf8(2)))", b"x \xFF")
}
