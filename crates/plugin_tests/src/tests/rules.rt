//! Which rule a changed amplifier breaks first.
use super::amplifier::{amplifier, broken, cut};
use std::alloc::Global;
use std::process::Abort;
use std::test::Fail;

/// What is left out, what is put in, and the rule that is broken then. In the second half two neighbours are, the later one at a
/// port of a lower index.
const RULES: &str = "urn:amp rdf:type | | no-plugin
| urn:1 lv2:index '7 | bad-index 2
urn:2 lv2:index | urn:2 lv2:index '256 | bad-index 1
urn:2 lv2:index;urn:1 lv2:index | urn:2 lv2:index '0;urn:1 lv2:index '0 | same-index 0
urn:1 lv2:index | urn:1 lv2:index '3 | gap 1
urn:0 lv2:symbol | urn:0 lv2:symbol '2in | bad-symbol 0
| urn:2 lv2:symbol 'b | bad-symbol 2
urn:2 lv2:symbol | urn:2 lv2:symbol 'in | same-symbol 2
urn:1 lv2:name | urn:1 lv2:name urn:In | no-name 1
urn:1 rdf:type lv2:InputPort | | no-direction 1
| urn:1 rdf:type lv2:OutputPort | two-directions 1
urn:1 rdf:type lv2:AudioPort | urn:1 rdf:type urn:odd | port-class 1
| urn:amp lv2:requiredFeature urid:map;urn:amp lv2:requiredFeature urn:no | feature urn:no
| urn:amp options:requiredOption bufsz:minBlockLength;urn:amp options:requiredOption urn:no | option urn:no
| urn:0 lv2:default '1 | bad-value 0
urn:0 lv2:minimum | urn:0 lv2:minimum '24.1 | bad-value 0
urn:1 rdf:type lv2:AudioPort | urn:1 rdf:type atom:AtomPort;urn:1 rsz:minimumSize '1048577 | bad-value 1
urn:amp rdf:type;urn:0 lv2:index | | no-plugin
urn:2 lv2:index;urn:1 lv2:index | urn:2 lv2:index '0 | bad-index 2
urn:2 lv2:index;urn:1 lv2:index | urn:2 lv2:index '3;urn:1 lv2:index '3 | same-index 3
urn:2 lv2:index;urn:0 lv2:symbol | urn:2 lv2:index '3 | gap 2
urn:1 lv2:symbol;urn:2 lv2:symbol | urn:1 lv2:symbol 'gain | bad-symbol 2
urn:2 lv2:symbol;urn:1 lv2:name | urn:2 lv2:symbol 'in | same-symbol 2
urn:2 lv2:name;urn:1 rdf:type lv2:InputPort | | no-name 2
urn:2 rdf:type lv2:OutputPort | urn:1 rdf:type lv2:OutputPort | no-direction 2
urn:1 rdf:type lv2:AudioPort | urn:2 rdf:type lv2:InputPort | two-directions 2
urn:1 rdf:type lv2:AudioPort | urn:amp lv2:requiredFeature urn:no | port-class 1
| urn:amp options:requiredOption urn:o;urn:amp lv2:requiredFeature 'f | feature \"f\"^^<urn:string>
| urn:0 lv2:default '1;urn:amp options:requiredOption urn:o | option urn:o
| urn:amp lv2:optionalFeature urn:no | well
| urn:amp lv2:requiredFeature bufsz:powerOf2BlockLength | well";

fn text_of(alloc: Global, block: u32, without: &str, with: &str) -> Result<String, Fail> {
    let store = amplifier(alloc, without, with)?;
    broken(alloc, &store, block)
}

fn breaks(rt: &impl Abort, alloc: Global, line: &str) -> Result<(), Fail> {
    let (without, rest) = cut(line);
    let (with, rule) = cut(rest);
    let text = text_of(alloc, 256, without, with)?;
    assert_eq!(rt; text.as_str(), rule, "{line}");
    Ok(())
}

#[test]
fn the_first_broken_rule(rt: HostRuntime) -> Result<(), Fail> {
    for line in RULES.lines() {
        breaks(&rt, rt.alloc(), line)?;
    }
    Ok(())
}

#[test]
fn a_power_of_two(rt: HostRuntime) -> Result<(), Fail> {
    let with = "urn:amp lv2:requiredFeature bufsz:powerOf2BlockLength";
    let text = text_of(rt.alloc(), 257, "", with)?;
    assert!(rt; text.as_str().starts_with("feature "));
    Ok(())
}
