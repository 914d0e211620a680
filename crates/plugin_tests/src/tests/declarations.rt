//! What is declared of the amplifier and of its ports.
use super::amplifier::{amplifier, cut, declared};
use lv_base::{Fixed, Items, Text};
use plugin_decl::{
    Decl, DeclFault, Port, PortKind, one_answer, options_of, patch_port, reply_port, some_answer,
    version_of,
};
use std::alloc::Global;
use std::process::Abort;
use std::test::Fail;
use triple_store::Store;

fn kind_text(kind: PortKind) -> &'static str {
    match kind {
        PortKind::Audio => "audio",
        PortKind::Cv => "cv",
        PortKind::Control => "control",
        PortKind::Atom => "atom",
        PortKind::Unsupported => "none",
    }
}

/// A bound in the units of a control value, if there is one.
fn bound_text(alloc: Global, bound: Option<Fixed>) -> Result<String, Fail> {
    match bound {
        Some(bound) => Ok(format!(in alloc; "{}", bound.0)?),
        None => Ok(String::from_str(alloc, "-")?),
    }
}

fn values_text(alloc: Global, port: &Port) -> Result<String, Fail> {
    let least = bound_text(alloc, port.least)?;
    let most = bound_text(alloc, port.most)?;
    let first = port.first.0;
    Ok(format!(in alloc; "{first} {least} {most}")?)
}

fn flags_text(alloc: Global, port: &Port) -> Result<String, Fail> {
    let (input, optional, control, patch) = (port.input, port.optional, port.control, port.patch);
    Ok(format!(in alloc; "{input} {optional} {control} {patch}")?)
}

/// Its symbol, name, class and room; whether it is an input, optional, designated and speaking; its value, minimum and maximum.
fn port_text(alloc: Global, port: &Port) -> Result<String, Fail> {
    let kind = kind_text(port.kind);
    let flags = flags_text(alloc, port)?;
    let values = values_text(alloc, port)?;
    Ok(format!(in alloc;
        "{} {} {} {kind} {} {flags} {values}",
        port.index, port.symbol, port.name, port.room
    )?)
}

fn texts(alloc: Global, items: &Items<Text>) -> Result<String, Fail> {
    let mut all = String::new(alloc);
    for text in items.as_slice() {
        all.push_str(text.as_str())?;
        all.push_str(" ")?;
    }
    Ok(all)
}

/// Its name and versions; whether it has a worker, a state and a safe one; what it reads and writes.
fn plugin_text(alloc: Global, decl: &Decl) -> Result<String, Fail> {
    let reads = texts(alloc, &decl.reads)?;
    let writes = texts(alloc, &decl.writes)?;
    let (worker, state, safe) = (decl.worker, decl.state, decl.safe);
    Ok(format!(in alloc;
        "{} {} {} {worker} {state} {safe} {reads}/ {writes}",
        decl.name, decl.minor, decl.micro
    )?)
}

/// The text of the plug-in, or of the port at this place.
fn text_at(alloc: Global, decl: &Decl, place: &str) -> Result<String, Fail> {
    match place.parse::<usize>() {
        Ok(place) => port_text(alloc, decl.ports.get(place).ok_or("a port")?),
        Err(_) => plugin_text(alloc, decl),
    }
}

fn answer_text(
    alloc: Global,
    answer: &Result<Decl, DeclFault>,
    place: &str,
) -> Result<String, Fail> {
    match answer {
        Ok(decl) => text_at(alloc, decl, place),
        Err(_) => Ok(String::from_str(alloc, "refused")?),
    }
}

fn shown(alloc: Global, store: &Store, place: &str) -> Result<String, Fail> {
    let answer = declared(alloc, store, 256);
    answer_text(alloc, &answer, place)
}

fn text_of(alloc: Global, without: &str, with: &str, place: &str) -> Result<String, Fail> {
    let store = amplifier(alloc, without, with)?;
    shown(alloc, &store, place)
}

/// What is left out, what is put in, which port or the plug-in, and what is declared of it then.
const DECLARED: &str = "| | plugin | Amp 0 0 false false false /
| | 0 | 0 gain Gain control 0 true false false false 0 -1509949440 402653184
| | 1 | 1 in In audio 0 true false false false 0 - -
| | 2 | 2 out Out audio 0 false false false false 0 - -
urn:1 rdf:type lv2:AudioPort | urn:1 lv2:portProperty lv2:connectionOptional | 1 | 1 in In none 0 true true false false 0 - -
| urn:amp lv2:minorVersion '3;urn:amp lv2:minorVersion '5 | plugin | Amp 3 0 false false false /
| urn:amp lv2:microVersion '4294967296;urn:amp lv2:microVersion '5 | plugin | Amp 0 0 false false false /
urn:amp doap:name 'Amp | | plugin | Verst 0 0 false false false /
urn:0 lv2:default | urn:0 lv2:default '30.0 | 0 | 0 gain Gain control 0 true false false false 503316480 -1509949440 402653184
urn:0 lv2:default | | 0 | 0 gain Gain control 0 true false false false -1509949440 -1509949440 402653184
urn:0 lv2:default | urn:0 lv2:default 'true | 0 | 0 gain Gain control 0 true false false false 16777216 -1509949440 402653184
urn:1 rdf:type lv2:AudioPort | urn:1 rdf:type atom:AtomPort;urn:1 rsz:minimumSize '5001;urn:1 atom:supports patch:Message | 1 | 1 in In atom 5008 true false false true 0 - -
| urn:amp lv2:extensionData work:interface;urn:amp lv2:extensionData state:interface;urn:amp lv2:optionalFeature state:threadSafeRestore | plugin | Amp 0 0 true true true /
| urn:amp lv2:extensionData state:interface;urn:amp lv2:requiredFeature state:threadSafeRestore | plugin | Amp 0 0 false true false /
| urn:amp patch:readable urn:level;urn:amp patch:writable 'no | plugin | Amp 0 0 false false false urn:level /";

fn is_declared(rt: &impl Abort, alloc: Global, line: &str) -> Result<(), Fail> {
    let (without, rest) = cut(line);
    let (with, rest) = cut(rest);
    let (place, wanted) = cut(rest);
    let text = text_of(alloc, without, with, place)?;
    assert_eq!(rt; text.as_str().trim(), wanted, "{line}");
    Ok(())
}

#[test]
fn what_is_declared(rt: HostRuntime) -> Result<(), Fail> {
    for line in DECLARED.lines() {
        is_declared(&rt, rt.alloc(), line)?;
    }
    one_answer();
    some_answer();
    Ok(())
}

const SPEAKING: &str =
    "urn:1 rdf:type atom:AtomPort;urn:1 atom:supports patch:Message;urn:2 rdf:type atom:AtomPort;urn:2 lv2:designation lv2:control";

/// The port that takes patch messages, and the one that answers them.
fn message_ports_in(answer: &Result<Decl, DeclFault>) -> (Option<u32>, Option<u32>) {
    match answer {
        Ok(decl) => (patch_port(decl), reply_port(decl)),
        Err(_) => (None, None),
    }
}

fn message_ports_for(alloc: Global, store: &Store) -> (Option<u32>, Option<u32>) {
    let answer = declared(alloc, store, 256);
    message_ports_in(&answer)
}

fn message_ports_of(
    alloc: Global,
    without: &str,
    with: &str,
) -> Result<(Option<u32>, Option<u32>), Fail> {
    let store = amplifier(alloc, without, with)?;
    Ok(message_ports_for(alloc, &store))
}

#[test]
fn message_ports(rt: HostRuntime) -> Result<(), Fail> {
    let without = "urn:1 rdf:type lv2:AudioPort;urn:2 rdf:type lv2:AudioPort";
    let (patch, reply) = message_ports_of(rt.alloc(), without, SPEAKING)?;
    assert_eq!(rt; patch, Some(1));
    assert_eq!(rt; reply, Some(2));
    Ok(())
}

#[test]
fn no_message_port(rt: HostRuntime) -> Result<(), Fail> {
    let (patch, reply) = message_ports_of(rt.alloc(), "", "")?;
    assert_eq!(rt; patch, None);
    assert_eq!(rt; reply, None);
    Ok(())
}

/// The version of the plug-in with this URI, by the amplifier's lines and these.
fn version_with(alloc: Global, with: &str, uri: &str) -> Result<Option<(u32, u32)>, Fail> {
    let uri = Text::from_str(alloc, uri)?;
    let store = amplifier(alloc, "", with)?;
    let version = version_of(&store, &uri)?;
    Ok(version.map(|version| (version.minor, version.micro)))
}

#[test]
fn versions(rt: HostRuntime) -> Result<(), Fail> {
    let with = "urn:amp lv2:minorVersion '3;urn:amp lv2:microVersion '7";
    let amplifier = version_with(rt.alloc(), with, "urn:amp")?;
    let port = version_with(rt.alloc(), with, "urn:0")?;
    assert_eq!(rt; amplifier, Some((3, 7)));
    assert_eq!(rt; port, None);
    Ok(())
}

#[test]
fn options(rt: HostRuntime) {
    let options = options_of(256);
    assert_eq!(rt; options.most, 256);
    assert_eq!(rt; options.least, 256);
}
