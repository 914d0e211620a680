//! Which declarations the stock codes refuse.
use super::declared::declared;
use lv_base::Text;
use plug_api::{Codes, MakeFault};
use plugin_decl::{Decl, options_of};
use std::alloc::Global;
use std::mem;
use std::process::Abort;
use std::test::Fail;
use stock_codes::Stock;
use urid_map::Urids;

/// A declaration without its last port.
fn without_last(alloc: Global, uri: &str) -> Result<Decl, Fail> {
    let mut decl = declared(alloc, uri)?;
    mem::drop(decl.ports.pop());
    Ok(decl)
}

/// The declaration of the constant, of another plug-in.
fn of_another(alloc: Global, uri: &str) -> Result<Decl, Fail> {
    let mut decl = declared(alloc, "urn:lv2fx:const")?;
    let uri = Text::from_str(alloc, uri)?;
    mem::drop(mem::replace(&mut decl.uri, uri));
    Ok(decl)
}

/// Why no instance is made, if none is.
fn refusal(alloc: Global, decl: &Decl) -> Result<Option<MakeFault>, Fail> {
    let mut urids = Urids::new(alloc)?;
    match Stock.make(alloc, decl, 48000, &options_of(8), &mut urids) {
        Ok(_) => Ok(None),
        Err(fault) => Ok(Some(fault)),
    }
}

fn is_refused(rt: &impl Abort, alloc: Global, uri: &str) -> Result<(), Fail> {
    let decl = without_last(alloc, uri)?;
    let refusal = refusal(alloc, &decl)?;
    assert!(rt; matches!(refusal, Some(MakeFault::Refused(1))), "{uri}");
    Ok(())
}

const CODES: &str =
    "urn:lv2fx:const urn:lv2fx:amp urn:lv2fx:mix urn:lv2fx:echo urn:lv2fx:fetch urn:lv2fx:burst urn:lv2fx:keep urn:lv2fx:tank";

#[test]
fn each_code_misses_its_last_port(rt: HostRuntime) -> Result<(), Fail> {
    for uri in CODES.split_whitespace() {
        is_refused(&rt, rt.alloc(), uri)?;
    }
    Ok(())
}

#[test]
fn another_uri_has_no_code(rt: HostRuntime) -> Result<(), Fail> {
    let decl = of_another(rt.alloc(), "urn:lv2fx:pan")?;
    let refusal = refusal(rt.alloc(), &decl)?;
    assert!(rt; matches!(refusal, Some(MakeFault::NoCode)));
    Ok(())
}

/// With its ports a code is made.
#[test]
fn a_declared_tank_is_made(rt: HostRuntime) -> Result<(), Fail> {
    let decl = declared(rt.alloc(), "urn:lv2fx:tank")?;
    let refusal = refusal(rt.alloc(), &decl)?;
    assert!(rt; refusal.is_none());
    Ok(())
}
