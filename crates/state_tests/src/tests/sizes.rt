use crate::tests::reading::read_over;
use lv_base::Bytes;
use state_file::StateFault;
use std::alloc::Global;
use std::test::Fail;
use urid_map::Urids;

/// What follows a state's class up to its properties.
const HEAD: &str = " a fx:Saved ; fx:name \"t\" ; fx:plugin <urn:p> ; state:state [ ";

/// A state with so many properties, of one byte each.
fn with_properties(alloc: Global, count: u64) -> Result<Bytes, Fail> {
    let mut text = Bytes::new(alloc);
    text.push_str("<#s>")?;
    text.push_str(HEAD)?;
    for number in 0..count {
        text.push_str("<urn:k")?;
        text.push_decimal(number)?;
        text.push_str("> <#good> ; ")?;
    }
    text.push_str("] .\n")?;
    Ok(text)
}

/// A state with 65,535 bytes and those of another value.
fn with_bytes(alloc: Global, value: &str) -> Result<Bytes, Fail> {
    let mut text = Bytes::new(alloc);
    text.push_str("<#s>")?;
    text.push_str(HEAD)?;
    text.push_str("<urn:k> [ fx:type <urn:t> ; fx:flags 3 ; fx:bytes \"")?;
    for _ in 0..21845 {
        text.push_str("AAAA")?;
    }
    text.push_str("\" ] ; <urn:l> ")?;
    text.push_str(value)?;
    text.push_str(" ] .\n")?;
    Ok(text)
}

/// How many URIs have numbers afterwards, or the first broken rule with those that had before.
fn told(alloc: Global, states: &Bytes) -> Result<(&'static str, u32), Fail> {
    let mut urids = Urids::new(alloc)?;
    let Ok(text) = str::from_utf8(states.as_slice()) else {
        return Err(Fail::new("no text"));
    };
    let word = match read_over(alloc, text, &mut urids)? {
        Ok(_) => "read",
        Err(StateFault::Size) => "size",
        Err(StateFault::Bytes) => "bytes",
        Err(_) => "other",
    };
    Ok((word, urids.held()))
}

/// 25 URIs have numbers from the start; 256 keys and one type come new.
#[test]
fn reads_256_properties(rt: HostRuntime) -> Result<(), Fail> {
    let most = with_properties(rt.alloc(), 256)?;
    assert_eq!(rt; told(rt.alloc(), &most)?, ("read", 282));
    let more = with_properties(rt.alloc(), 257)?;
    assert_eq!(rt; told(rt.alloc(), &more)?, ("size", 25));
    Ok(())
}

#[test]
fn reads_65536_bytes(rt: HostRuntime) -> Result<(), Fail> {
    let most = with_bytes(rt.alloc(), "<#good>")?;
    assert_eq!(rt; told(rt.alloc(), &most)?, ("read", 28));
    let more = with_bytes(rt.alloc(), "<#good> ; <urn:m> <#good>")?;
    assert_eq!(rt; told(rt.alloc(), &more)?, ("size", 25));
    Ok(())
}

/// Bytes of all states are judged before the size of any.
#[test]
fn judges_bytes_before_size(rt: HostRuntime) -> Result<(), Fail> {
    let mut states = with_properties(rt.alloc(), 257)?;
    states.push_str("<#u>")?;
    states.push_str(HEAD)?;
    states.push_str("<urn:k> <#loose> ] .\n")?;
    assert_eq!(rt; told(rt.alloc(), &states)?, ("bytes", 25));
    Ok(())
}
