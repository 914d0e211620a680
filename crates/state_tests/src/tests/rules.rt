use crate::tests::reading::read_over;
use state_file::StateFault;
use std::alloc::Global;
use std::test::Fail;
use urid_map::Urids;

/// A line for each case: how many states are read or the first broken rule, and then the states.
const CASES: &str = "
0 <#s> fx:name \"t\" ; fx:plugin <urn:p> ; state:state [] .
1 <#s> a fx:Saved ; fx:name \"t\" ; fx:plugin <urn:p> ; state:state [] .
1 <#s> a fx:Saved ; fx:name \"t\" , <urn:t> ; fx:plugin <urn:p> , \"p\" ; state:state <#n> , \"n\" . <#n> <urn:k> <#good> .
1 <#s> a fx:Saved ; fx:name \"t\" ; fx:plugin <urn:p> ; state:state [ <urn:k> <#good> ; <urn:l> <#empty> ] .
2 [] a fx:Saved ; fx:name \"t\" ; fx:plugin <urn:p> ; state:state <#n> . <#s> a fx:Saved ; fx:name \"u\" ; fx:plugin <urn:q> ; state:state <#n> .
shape <#s> a fx:Saved ; fx:plugin <urn:p> ; state:state [] .
shape <#s> a fx:Saved ; fx:name <urn:t> ; fx:plugin <urn:p> ; state:state [] .
shape <#s> a fx:Saved ; fx:name \"t\" , \"t\"@en ; fx:plugin <urn:p> ; state:state [] .
shape <#s> a fx:Saved ; fx:name \"t\" ; state:state [] .
shape <#s> a fx:Saved ; fx:name \"t\" ; fx:plugin \"urn:p\" ; state:state [] .
shape <#s> a fx:Saved ; fx:name \"t\" ; fx:plugin <urn:p> , <urn:q> ; state:state [] .
shape <#s> a fx:Saved ; fx:name \"t\" ; fx:plugin <urn:p> .
shape <#s> a fx:Saved ; fx:name \"t\" ; fx:plugin <urn:p> ; state:state \"n\" .
shape <#s> a fx:Saved ; fx:name \"t\" ; fx:plugin <urn:p> ; state:state [] , <#n> .
shape <#s> a fx:Saved ; fx:name \"t\" ; fx:plugin <urn:p> ; state:state [ a <urn:x> ] .
shape <#s> a fx:Saved ; fx:name \"t\" ; fx:plugin <urn:p> ; state:state [ <urn:k> \"x\" ] .
shape <#s> a fx:Saved ; fx:name \"t\" ; fx:plugin <urn:p> ; state:state [ <urn:k> <#good> ; <urn:l> <#good> ; <urn:k> <#empty> ] .
shape <#s> a fx:Saved ; fx:name \"t\" ; fx:plugin <urn:p> ; state:state [ <urn:k> <#typeless> ] .
shape <#s> a fx:Saved ; fx:name \"t\" ; fx:plugin <urn:p> ; state:state [ <urn:k> <#text-type> ] .
shape <#s> a fx:Saved ; fx:name \"t\" ; fx:plugin <urn:p> ; state:state [ <urn:k> <#two-types> ] .
shape <#s> a fx:Saved ; fx:name \"t\" ; fx:plugin <urn:p> ; state:state [ <urn:k> <#flagless> ] .
shape <#s> a fx:Saved ; fx:name \"t\" ; fx:plugin <urn:p> ; state:state [ <urn:k> <#two-flags> ] .
shape <#s> a fx:Saved ; fx:name \"t\" ; fx:plugin <urn:p> ; state:state [ <urn:k> <#byteless> ] .
shape <#s> a fx:Saved ; fx:name \"t\" ; fx:plugin <urn:p> ; state:state [ <urn:k> <#two-bytes> ] .
flags <#s> a fx:Saved ; fx:name \"t\" ; fx:plugin <urn:p> ; state:state [ <urn:k> <#good> ; <urn:l> <#four> ] .
flags <#s> a fx:Saved ; fx:name \"t\" ; fx:plugin <urn:p> ; state:state [ <urn:k> <#minus> ] .
flags <#s> a fx:Saved ; fx:name \"t\" ; fx:plugin <urn:p> ; state:state [ <urn:k> <#decimal> ] .
flags <#s> a fx:Saved ; fx:name \"t\" ; fx:plugin <urn:p> ; state:state [ <urn:k> <#iri-flags> ] .
bytes <#s> a fx:Saved ; fx:name \"t\" ; fx:plugin <urn:p> ; state:state [ <urn:k> <#good> ; <urn:l> <#loose> ] .
bytes <#s> a fx:Saved ; fx:name \"t\" ; fx:plugin <urn:p> ; state:state [ <urn:k> <#unpadded> ] .
bytes <#s> a fx:Saved ; fx:name \"t\" ; fx:plugin <urn:p> ; state:state [ <urn:k> <#iri-bytes> ] .
shape <#s> a fx:Saved ; fx:name \"t\" ; fx:plugin <urn:p> ; state:state [ <urn:k> <#four> ; <urn:l> <#byteless> ] .
flags <#s> a fx:Saved ; fx:name \"t\" ; fx:plugin <urn:p> ; state:state [ <urn:k> <#four-loose> ] .
shape <#s> a fx:Saved ; fx:name \"t\" ; fx:plugin <urn:p> ; state:state [ <urn:k> <#four> ] . <#u> a fx:Saved .
flags <#s> a fx:Saved ; fx:name \"t\" ; fx:plugin <urn:p> ; state:state [ <urn:k> <#loose> ] . <#u> a fx:Saved ; fx:name \"t\" ; fx:plugin <urn:p> ; state:state [ <urn:k> <#four> ] .
";

/// How many states a document says, or its first broken rule.
fn told(alloc: Global, states: &str, urids: &mut Urids) -> Result<&'static str, Fail> {
    Ok(match read_over(alloc, states, urids)? {
        Ok(saves) => match saves.len() {
            0 => "0",
            1 => "1",
            _ => "2",
        },
        Err(StateFault::Shape) => "shape",
        Err(StateFault::Flags) => "flags",
        Err(StateFault::Bytes) => "bytes",
        Err(_) => "other",
    })
}

#[test]
fn breaks_the_first_rule(rt: HostRuntime) -> Result<(), Fail> {
    let mut urids = Urids::new(rt.alloc())?;
    for line in CASES.lines() {
        if let Some((expected, states)) = line.split_once(' ') {
            assert_eq!(rt; told(rt.alloc(), states, &mut urids)?, expected);
        }
    }
    Ok(())
}

#[test]
fn names_the_rule(rt: HostRuntime) -> Result<(), Fail> {
    let text = format!(in rt.alloc(); "{}", StateFault::Flags)?;
    assert!(rt; text.as_str() == "flags");
    Ok(())
}
