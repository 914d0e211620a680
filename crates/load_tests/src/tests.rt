//! What loading a session answers, as a text: the plug-ins' names and the plan, or the first fault.
ghost use Rattle.graph_order.specs.Setup.{IsReady};

use graph_order::{GraphFault, Setup};
use lv_base::{Bytes, Items, Text};
use lv_outside::MemVault;
use plugin_decl::{Decl, DeclFault};
use session_setup::{Loaded, SetupFault, load, one_newest, one_setup, some_setup};
use setup_shape::shape_of;
use state_store::Props;
use std::alloc::Global;
use std::process::Abort;
use std::test::Fail;
use stock_codes::Stock;
use urid_map::Urids;
use whole_setup::{WholeFault, load_bytes, one_whole, some_whole};

/// Two instances of one plug-in, after four bundles, in the file that tests load.
const TWICE: &str =
    "s lv2fx 1 / bundle one / bundle two / bundle three / bundle four / inst a urn:p / inst b urn:p";

const ONE: &str =
    "\none/manifest.ttl @prefix lv2: <http://lv2plug.in/ns/lv2core#> . @prefix doap: <http://usefulinc.com/ns/doap#> . <urn:p> a lv2:Plugin ; doap:name \"one\" ";

const TWO: &str =
    "\ntwo/manifest.ttl @prefix lv2: <http://lv2plug.in/ns/lv2core#> . @prefix doap: <http://usefulinc.com/ns/doap#> . <urn:p> a lv2:Plugin ; doap:name \"two\" ";

const THREE: &str =
    "\nthree/manifest.ttl @prefix lv2: <http://lv2plug.in/ns/lv2core#> . @prefix doap: <http://usefulinc.com/ns/doap#> . <urn:p> a lv2:Plugin ; doap:name \"three\" ";

/// It says something of the plug-in, and doesn't declare it.
const FOUR: &str =
    "\nfour/manifest.ttl @prefix lv2: <http://lv2plug.in/ns/lv2core#> . <urn:p> lv2:minorVersion 9 .";

const STOCK: &str =
    "s lv2fx 1 / inst a urn:lv2fx:const / inst b urn:lv2fx:amp / inst c urn:lv2fx:mix / inst d urn:lv2fx:echo / inst e urn:lv2fx:fetch / inst f urn:lv2fx:burst / inst g urn:lv2fx:keep";

/// A circle over two of three stock codes.
const CIRCLE: &str =
    "s lv2fx 1 / block 1 / blocks 4 / inst c urn:lv2fx:const / inst a urn:lv2fx:mix / inst b urn:lv2fx:amp / set c value 0.25 / set b gain 0.5 / cable c out a a / cable a out b in / cable b out a b";

/// A session that restores a state of tank.
const RESTORES: &str = "s lv2fx 1 / blocks 3 / inst t urn:lv2fx:tank / at 1 restore t s.ttl 0";

/// A file with one state of tank, whose level is one half.
const STATE: &str =
    "\ns.ttl @prefix state: <http://lv2plug.in/ns/ext/state#> . @prefix fx: <urn:lv2fx:> . <#save0> a fx:Saved ; fx:name \"t\" ; fx:plugin <urn:lv2fx:tank> ; state:state [ fx:level [ fx:type fx:Fixed ; fx:flags 3 ; fx:bytes \"AACAAAAAAAA=\" ] ] .";

/// A file's bytes: its lines, with ` / ` between them.
fn lines(alloc: Global, text: &str) -> Result<Bytes, Fail> {
    let mut bytes = Bytes::new(alloc);
    for line in text.split(" / ") {
        bytes.push_all(line.as_bytes())?;
        bytes.push_all(b"\n")?;
    }
    Ok(bytes)
}

/// The files of lines that each have a path and a text.
fn stored(alloc: Global, files: &str) -> Result<Vec<(Bytes, Bytes)>, Fail> {
    let mut stored = Vec::new(alloc);
    for file in files.lines() {
        if let Some((path, text)) = file.split_once(' ') {
            let path = Bytes::from_slice(alloc, path.as_bytes())?;
            stored.push((path, lines(alloc, text)?))?;
        }
    }
    Ok(stored)
}

fn push(text: &mut String, word: &str) -> Result<(), Fail> {
    text.push_str(" ")?;
    text.push_str(word)?;
    Ok(())
}

fn push_names(text: &mut String, names: &[Text]) -> Result<(), Fail> {
    for name in names {
        push(text, name.as_str())?;
    }
    Ok(())
}

fn push_declared(text: &mut String, decls: &[Decl]) -> Result<(), Fail> {
    for decl in decls {
        push(text, decl.name.as_str())?;
    }
    Ok(())
}

/// The names of the plug-ins, and the order in which the instances run.
fn setup_text(alloc: Global, setup: &Setup) -> Result<String, Fail> {
    let mut text = String::from_str(alloc, "ok")?;
    push_declared(&mut text, setup.decls.as_slice())?;
    for inst in setup.plan.order.as_slice() {
        let place = format!(in alloc; "{inst}")?;
        push(&mut text, &place)?;
    }
    Ok(text)
}

fn rule_text(fault: &DeclFault) -> &'static str {
    match fault {
        DeclFault::NoPlugin => "no-plugin",
        DeclFault::Gap(_) => "gap",
        _ => "another rule",
    }
}

fn graph_text(alloc: Global, fault: &GraphFault, names: &[Text]) -> Result<String, Fail> {
    let mut text = match fault {
        GraphFault::Cycle(_) => String::from_str(alloc, "cycle")?,
        GraphFault::NoPort(line) => format!(in alloc; "no-port {line}")?,
        _ => String::from_str(alloc, "another rule")?,
    };
    push_names(&mut text, names)?;
    Ok(text)
}

fn fault_text(alloc: Global, fault: &SetupFault) -> Result<String, Fail> {
    match fault {
        SetupFault::Load(fault) => Ok(format!(in alloc; "{fault}")?),
        SetupFault::Script(fault) => Ok(format!(in alloc; "{fault}")?),
        SetupFault::Undeclared { uri, fault } => {
            let rule = rule_text(fault);
            Ok(format!(in alloc; "{uri} {rule}")?)
        }
        SetupFault::Graph { fault, names } => graph_text(alloc, fault, names.as_slice()),
    }
}

/// A vault with these files, of which these calls fail.
fn vault_of(alloc: Global, files: &str, fails: &[u64]) -> Result<MemVault, Fail> {
    let fails = fails.to_vec(alloc)?;
    Ok(MemVault::new(alloc, stored(alloc, files)?, fails))
}

/// The setup of a session that restores nothing.
fn told(alloc: Global, loaded: Loaded) -> Result<String, Fail> {
    let setup = loaded.with_states(Items::new(alloc));
    setup_text(alloc, &setup)
}

fn blamed(alloc: Global, fault: SetupFault) -> Result<String, Fail> {
    fault_text(alloc, &fault)
}

fn answer_over(alloc: Global, path: &Text, vault: &mut MemVault) -> Result<String, Fail> {
    match load(alloc, path, vault, &Stock) {
        Ok(loaded) => told(alloc, loaded),
        Err(fault) => blamed(alloc, fault),
    }
}

/// What the session in the file `s` answers, where these calls fail.
fn answer(alloc: Global, files: &str, fails: &[u64]) -> Result<String, Fail> {
    let path = Text::from_str(alloc, "s")?;
    let mut vault = vault_of(alloc, files, fails)?;
    answer_over(alloc, &path, &mut vault)
}

fn answers_where(
    rt: &impl Abort,
    files: &str,
    fails: &[u64],
    alloc: Global,
    wanted: &str,
) -> Result<(), Fail> {
    let text = answer(alloc, files, fails)?;
    assert_eq!(rt; text.as_str(), wanted, "{files}");
    Ok(())
}

fn answers(rt: &impl Abort, alloc: Global, files: &str, wanted: &str) -> Result<(), Fail> {
    answers_where(rt, files, &[], alloc, wanted)
}

/// The files of the session with four bundles, three of which end so.
fn bundled(alloc: Global, one: &str, two: &str, three: &str) -> Result<String, Fail> {
    let mut files = String::from_str(alloc, TWICE)?;
    files.push_str(ONE)?;
    files.push_str(one)?;
    files.push_str(TWO)?;
    files.push_str(two)?;
    files.push_str(THREE)?;
    files.push_str(three)?;
    files.push_str(FOUR)?;
    Ok(files)
}

#[test]
fn a_circle_and_its_names(rt: HostRuntime) -> Result<(), Fail> {
    let alloc = rt.alloc();
    answers(&rt, alloc, CIRCLE, "cycle a b")?;
    let files = format!(in alloc; "{CIRCLE} delayed / out a out")?;
    answers(&rt, alloc, &files, "ok Constant Mixer Amplifier 0 1 2")
}

#[test]
fn the_greatest_version_counts(rt: HostRuntime) -> Result<(), Fail> {
    let alloc = rt.alloc();
    let files = bundled(
        alloc,
        "; lv2:minorVersion 1 ; lv2:microVersion 9 .",
        "; lv2:minorVersion 2 ; lv2:microVersion 1 .",
        "; lv2:minorVersion 2 .",
    )?;
    answers(&rt, alloc, &files, "ok two two 0 1")
}

#[test]
fn of_equal_versions_the_first(rt: HostRuntime) -> Result<(), Fail> {
    let alloc = rt.alloc();
    let files = bundled(
        alloc,
        ".",
        "; lv2:microVersion 3 .",
        "; lv2:microVersion 3 .",
    )?;
    answers(&rt, alloc, &files, "ok two two 0 1")
}

#[test]
fn what_no_bundle_declares(rt: HostRuntime) -> Result<(), Fail> {
    let alloc = rt.alloc();
    answers(
        &rt,
        alloc,
        "s lv2fx 1 / inst c urn:lv2fx:none",
        "urn:lv2fx:none no-plugin",
    )?;
    let files = "s lv2fx 1 / inst c urn:lv2fx:echo / inst d urn:lv2fx:echo / cable d out c in";
    answers(&rt, alloc, files, "ok Echo Echo 1 0")?;
    answers(
        &rt,
        alloc,
        "s lv2fx 1 / inst c urn:lv2fx:echo / set c none 1",
        "no-port 3",
    )
}

#[test]
fn faults_in_the_order_of_work(rt: HostRuntime) -> Result<(), Fail> {
    let alloc = rt.alloc();
    answers(&rt, alloc, "t lv2fx 1", "missing s")?;
    answers(&rt, alloc, "s lv2fx 2", "line 1 breaks the rule Head")?;
    let files = format!(in alloc; "{TWICE}{ONE}.{THREE}.")?;
    answers(&rt, alloc, &files, "missing two/manifest.ttl")
}

#[test]
fn reads_that_fail(rt: HostRuntime) -> Result<(), Fail> {
    let alloc = rt.alloc();
    let files = bundled(alloc, ".", ".", ".")?;
    answers_where(&rt, &files, &[0], alloc, "read failed s")?;
    answers_where(&rt, &files, &[2], alloc, "read failed two/manifest.ttl")?;
    one_newest();
    one_setup();
    some_setup();
    Ok(())
}

#[test]
fn every_stock_code_is_declared(rt: HostRuntime) -> Result<(), Fail> {
    answers(
        &rt,
        rt.alloc(),
        STOCK,
        "ok Constant Amplifier Mixer Echo Fetch Burst Keep 0 1 2 3 4 5 6",
    )
}

/// The third byte of the level, the one that one half has above 0.
fn level(props: &Props) -> Option<u8> {
    let level = props.retrieve(26)?;
    level.bytes.as_slice().get(2).copied()
}

/// The levels that are restored.
fn levels_text(alloc: Global, setup: &Setup) -> Result<String, Fail> {
    let mut text = String::from_str(alloc, "levels")?;
    for props in setup.states.as_slice() {
        let level = format!(in alloc; "{:?}", level(props))?;
        push(&mut text, &level)?;
    }
    Ok(text)
}

fn whole_text(alloc: Global, answer: &Result<Setup, WholeFault>) -> Result<String, Fail> {
    match answer {
        Ok(setup) => levels_text(alloc, setup),
        Err(WholeFault::Setup(fault)) => fault_text(alloc, fault),
        Err(WholeFault::States(fault)) => Ok(format!(in alloc; "{fault}")?),
    }
}

fn whole_over(alloc: Global, vault: &mut MemVault) -> Result<String, Fail> {
    let path = Text::from_str(alloc, "s")?;
    let mut urids = Urids::new(alloc)?;
    let answer = whole_setup::load(alloc, &path, vault, &Stock, &mut urids);
    whole_text(alloc, &answer)
}

/// Whether the session in the file `s`, with its states, answers so.
fn restores(rt: &impl Abort, alloc: Global, files: &str, wanted: &str) -> Result<(), Fail> {
    let mut vault = vault_of(alloc, files, &[])?;
    let text = whole_over(alloc, &mut vault)?;
    assert_eq!(rt; text.as_str(), wanted, "{files}");
    Ok(())
}

#[test]
fn a_session_with_its_states(rt: HostRuntime) -> Result<(), Fail> {
    let alloc = rt.alloc();
    one_whole();
    some_whole();
    let files = format!(in alloc; "{RESTORES}{STATE}")?;
    restores(&rt, alloc, &files, "levels Some(128)")?;
    let files = format!(in alloc; "{RESTORES} / at 2 restore t s.ttl 1{STATE}")?;
    restores(&rt, alloc, &files, "state s.ttl: count")?;
    restores(&rt, alloc, RESTORES, "missing s.ttl")
}

#[test]
fn bundles_before_states(rt: HostRuntime) -> Result<(), Fail> {
    let alloc = rt.alloc();
    let files =
        "s lv2fx 1 / blocks 3 / bundle one / inst t urn:lv2fx:tank / at 1 restore t s.ttl 0";
    restores(&rt, alloc, files, "missing one/manifest.ttl")
}

#[test]
fn a_session_of_bytes(rt: HostRuntime) -> Result<(), Fail> {
    let alloc = rt.alloc();
    let mut vault = vault_of(alloc, "", &[])?;
    let mut urids = Urids::new(alloc)?;
    let answer = load_bytes(alloc, b"lv2fx 1\n", &mut vault, &Stock, &mut urids);
    let text = whole_text(alloc, &answer)?;
    assert_eq!(rt; text.as_str(), "levels");
    Ok(())
}

/// Of each instance its worker, and whether it schedules work and answers messages.
fn shape_text(alloc: Global, setup: &Setup) -> Result<String, Fail>
    requires { IsReady setup.now }
{
    let shape = shape_of(alloc, setup)?;
    let mut text = String::from_str(alloc, "shape")?;
    for inst in shape.insts.as_slice() {
        let part = format!(in alloc; "{} {} {}", inst.worker, inst.works, inst.replies)?;
        push(&mut text, &part)?;
    }
    Ok(text)
}

fn shape_over(alloc: Global, vault: &mut MemVault) -> Result<String, Fail> {
    let path = Text::from_str(alloc, "s")?;
    let mut urids = Urids::new(alloc)?;
    match whole_setup::load(alloc, &path, vault, &Stock, &mut urids) {
        Ok(setup) => shape_text(alloc, &setup),
        Err(_) => Err(Fail::new("no setup")),
    }
}

#[test]
fn a_session_and_its_shape(rt: HostRuntime) -> Result<(), Fail> {
    let alloc = rt.alloc();
    let files =
        "s lv2fx 1 / workers 2 / inst f urn:lv2fx:fetch / inst t urn:lv2fx:tank / inst k urn:lv2fx:keep";
    let mut vault = vault_of(alloc, files, &[])?;
    let text = shape_over(alloc, &mut vault)?;
    assert_eq!(&rt;
        text.as_str(),
        "shape 1 true false 2 true true 1 false false"
    );
    Ok(())
}
