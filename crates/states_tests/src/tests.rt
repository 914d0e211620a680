use lv_base::Bytes;
use lv_outside::MemVault;
use session_script::{Session, read};
use session_states::{StatesFault, one_answer, some_answer, states};
use state_store::Props;
use std::alloc::Global;
use std::process::Abort;
use std::test::Fail;
use urid_map::Urids;

/// A file with two states of a plug-in, whose levels are 0 and one half.
const FILE: &str = "@prefix state: <http://lv2plug.in/ns/ext/state#> .
@prefix fx: <urn:lv2fx:> .

<#save0> a fx:Saved ;
  fx:name \"t\" ;
  fx:plugin <urn:lv2fx:tank> ;
  state:state [
    <urn:lv2fx:level> [ fx:type <urn:lv2fx:Fixed> ; fx:flags 3 ; fx:bytes \"AAAAAAAAAAA=\" ]
  ] .

<#save1> a fx:Saved ;
  fx:name \"t\" ;
  fx:plugin <urn:lv2fx:tank> ;
  state:state [
    <urn:lv2fx:level> [ fx:type <urn:lv2fx:Fixed> ; fx:flags 3 ; fx:bytes \"AACAAAAAAAA=\" ]
  ] .
";

/// A session with two instances of that plug-in and one of another.
const HEAD: &str = "lv2fx 1
blocks 3
inst t urn:lv2fx:tank
inst u urn:lv2fx:tank
inst k urn:lv2fx:keep
";

fn session(alloc: Global, actions: &str) -> Result<Session, Fail> {
    let text = format!(in alloc; "{HEAD}{actions}")?;
    if text.len() >= 4_294_967_296 {
        return Err(Fail::from("too long"));
    }
    Ok(read(alloc, text.as_bytes())?)
}

/// A vault with the file at `s.ttl`.
fn vault(alloc: Global) -> Result<MemVault, Fail> {
    let mut files = Vec::new(alloc);
    let path = Bytes::from_slice(alloc, b"s.ttl")?;
    files.push((path, Bytes::from_slice(alloc, FILE.as_bytes())?))?;
    Ok(MemVault::new(alloc, files, Vec::new(alloc)))
}

/// The third byte of the level, which is the first that the two states differ in.
fn level(props: &Props) -> Option<u8> {
    let level = props.retrieve(26)?;
    level.bytes.as_slice().get(2).copied()
}

fn levels_text(alloc: Global, levels: &[Props]) -> Result<String, Fail> {
    let mut text = String::from_str(alloc, "levels")?;
    for props in levels {
        let level = format!(in alloc; " {:?}", level(props))?;
        text.push_str(level.as_str())?;
    }
    Ok(text)
}

fn fault_text(alloc: Global, fault: &StatesFault) -> Result<String, Fail> {
    Ok(format!(in alloc; "{fault}")?)
}

fn answer_of(alloc: Global, session: &Session) -> Result<String, Fail> {
    let mut vault = vault(alloc)?;
    let mut urids = Urids::new(alloc)?;
    match states(alloc, session, &mut vault, &mut urids) {
        Ok(levels) => levels_text(alloc, levels.as_slice()),
        Err(fault) => fault_text(alloc, &fault),
    }
}

/// The levels that the actions of a session restore, or the first cause why they can't.
fn answer(alloc: Global, actions: &str) -> Result<String, Fail> {
    let session = session(alloc, actions)?;
    answer_of(alloc, &session)
}

fn answers(rt: &impl Abort, alloc: Global, actions: &str, wanted: &str) -> Result<(), Fail> {
    let text = answer(alloc, actions)?;
    assert_eq!(rt; text.as_str(), wanted, "{actions}");
    Ok(())
}

#[test]
fn each_restore_has_its_state(rt: HostRuntime) -> Result<(), Fail> {
    one_answer();
    some_answer();
    answers(
        &rt,
        rt.alloc(),
        "at 1 restore t s.ttl 1\n",
        "levels Some(128)",
    )?;
    answers(
        &rt,
        rt.alloc(),
        "at 0 restore t s.ttl 1\nat 0 restore u s.ttl 0\n",
        "levels Some(128) Some(0)",
    )?;
    answers(&rt, rt.alloc(), "at 0 save t\n", "levels")
}

#[test]
fn first_causes(rt: HostRuntime) -> Result<(), Fail> {
    answers(
        &rt,
        rt.alloc(),
        "at 0 restore t s.ttl 2\n",
        "state s.ttl: count",
    )?;
    answers(
        &rt,
        rt.alloc(),
        "at 0 restore k s.ttl 0\n",
        "state s.ttl: plugin",
    )?;
    answers(
        &rt,
        rt.alloc(),
        "at 0 restore k s.ttl 0\nat 1 restore t s.ttl 2\n",
        "state s.ttl: count",
    )?;
    answers(
        &rt,
        rt.alloc(),
        "at 0 restore t s.ttl 2\nat 0 restore t no.ttl 0\n",
        "state s.ttl: count",
    )
}
