//! How many brackets may be open.

use crate::tests::reading::{base, read_new};
use std::alloc::Global;
use std::test::Fail;
use turtle_read::TurtleFault;

/// `<urn:s> <urn:p>` and so many collections, one within the other.
fn nested(alloc: Global, depth: usize) -> Result<String, Fail> {
    let mut text = String::from_str(alloc, "<urn:s> <urn:p> ")?;
    for _ in 0..depth {
        text.push('(')?;
    }
    for _ in 0..depth {
        text.push(')')?;
    }
    text.push('.')?;
    Ok(text)
}

/// What such a document is.
fn read_nested(alloc: Global, depth: usize) -> Result<Result<u32, TurtleFault>, Fail> {
    let base = base(alloc)?;
    let text = nested(alloc, depth)?;
    let (result, _) = read_new(alloc, &base, text.as_bytes());
    Ok(result)
}

/// All but the innermost collection have one item, hence two triples.
#[test]
fn depth(rt: HostRuntime) -> Result<(), Fail> {
    let most = read_nested(rt.alloc(), 256)?;
    assert_eq!(rt; most, Ok(511));
    let deeper = read_nested(rt.alloc(), 257)?;
    assert_eq!(rt; deeper, Err(TurtleFault::Depth(272)));
    Ok(())
}
