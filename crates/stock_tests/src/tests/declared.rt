//! The declarations that come with the stock codes.
ghost use Rattle.std.specs.Prelude.{◌≡◌, true, is_some, IfOk};
ghost use Rattle.iri_resolve.specs.Components.{scheme_of};
ghost use Rattle.plugin_decl.specs.Valid.{IsValid};

use lv_base::{NoMemory, Text};
use plug_api::Codes;
use plugin_decl::{Decl, declare, patch_port, reply_port};
use std::alloc::Global;
use std::process::Abort;
use std::test::Fail;
use stock_codes::Stock;
use triple_store::Store;

fn base(alloc: Global) -> Result<Text, NoMemory>
    ensures { IfOk result (λ base. is_some (scheme_of base) ≡ true) }
{
    Text::from_str(alloc, "file:///stock")
}

/// The triples of a document.
fn store_of(alloc: Global, text: &[u8]) -> Result<Store, Fail> {
    let base = base(alloc)?;
    let mut store = Store::new(alloc);
    match turtle_read::read(alloc, &base, text, &mut store) {
        Ok(_) => Ok(store),
        Err(_) => Err(Fail::new("no document")),
    }
}

/// What is declared of a stock code.
pub(super) fn declared(alloc: Global, uri: &str) -> Result<Decl, Fail>
    ensures { IfOk result IsValid }
{
    let uri = Text::from_str(alloc, uri)?;
    let Some(text) = Stock.text(&uri) else {
        return Err(Fail::new("no code"));
    };
    let store = store_of(alloc, text)?;
    judged(alloc, &store, &uri)
}

fn judged(alloc: Global, store: &Store, uri: &Text) -> Result<Decl, Fail>
    ensures { IfOk result IsValid }
{
    match declare(alloc, store, uri, 8) {
        Ok(decl) => Ok(decl),
        Err(_) => Err(Fail::new("not declared")),
    }
}

/// Of each code its URI, its name, how many ports it has, and whether it has a worker, a state and one that is restored beside runs.
const CODES: &str = "urn:lv2fx:const Constant 2 false false false
urn:lv2fx:amp Amplifier 3 false false false
urn:lv2fx:mix Mixer 3 false false false
urn:lv2fx:echo Echo 3 false false false
urn:lv2fx:fetch Fetch 2 true false false
urn:lv2fx:burst Burst 5 true false false
urn:lv2fx:keep Keep 2 false true false
urn:lv2fx:tank Tank 3 true true true
";

fn line_of(alloc: Global, decl: &Decl) -> Result<String, Fail> {
    let ports = decl.ports.as_slice().len();
    let (worker, state, safe) = (decl.worker, decl.state, decl.safe);
    Ok(format!(in alloc;
        "{} {} {ports} {worker} {state} {safe}",
        decl.uri, decl.name
    )?)
}

fn found_line(alloc: Global, uri: &str) -> Result<String, Fail> {
    let decl = declared(alloc, uri)?;
    line_of(alloc, &decl)
}

fn is_declared(rt: &impl Abort, alloc: Global, line: &str) -> Result<(), Fail> {
    let (uri, _) = line.split_once(' ').ok_or("a line")?;
    let found = found_line(alloc, uri)?;
    assert_eq!(rt; found.as_str(), line);
    Ok(())
}

#[test]
fn each_code_is_declared(rt: HostRuntime) -> Result<(), Fail> {
    for line in CODES.lines() {
        is_declared(&rt, rt.alloc(), line)?;
    }
    Ok(())
}

/// Its only property can be read and written.
fn has_level(decl: &Decl) -> bool {
    let level = |texts: &[Text]| match texts {
        [text] => text.as_str() == "urn:lv2fx:level",
        _ => false,
    };
    level(decl.reads.as_slice()) && level(decl.writes.as_slice())
}

#[test]
fn tank_has_its_message_ports(rt: HostRuntime) -> Result<(), Fail> {
    let decl = declared(rt.alloc(), "urn:lv2fx:tank")?;
    assert!(rt; has_level(&decl));
    assert!(rt; matches!(patch_port(&decl), Some(0)));
    assert!(rt; matches!(reply_port(&decl), Some(1)));
    Ok(())
}
