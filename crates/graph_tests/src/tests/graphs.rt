//! Why sessions have no plan, and which plan they have.
ghost use Rattle.std.specs.Prelude.{IfOk};
ghost use Rattle.session_script.specs.Valid.{IsValid};

use super::declared::decls;
use graph_order::{GraphFault, order};
use lv_base::Items;
use plugin_decl::Decl;
use session_script::{Session, read};
use std::alloc::{AllocError, Global};
use std::process::Abort;
use std::test::Fail;

/// What stands above each case: lines 1 to 4.
const HEAD: &str = "lv2fx 1;inst a urn:x:all;inst b urn:x:bare;inst c urn:x:bare;";

/// A rule that is broken alone, with its line.
const ALONE: &str = "no-port 5|set a none 1;
direction 5|set a level 1;
kind 5|set a in 1;
no-port 5|cable a none b in;
no-port 5|cable a out b none;
direction 5|cable a in b in;
direction 5|cable a out b bent;
kind 5|cable a out b bend;
kind 5|cable a out b ask;
kind 5|cable a bent b ask;
kind 5|cable a level b gain;
kind 5|cable a out b odd;
no-port 5|out a none;
direction 5|out a in;
kind 5|out a level;
kind 5|out a tell;
no-port 5|at 0 set a none 1;
direction 5|at 0 set a level 1;
kind 5|at 0 set a ask 1;
no-patch 5|at 0 patch-set b urn:p fixed 1;
no-patch 5|at 0 patch-set b urn:p int 1;
no-patch 5|at 0 patch-get b;
no-state 5|at 0 save b;
no-state 5|at 0 restore b s.ttl 0;
cycle a|cable a out a in;
cycle a b|cable a out b in;cable b out a in;";

/// Two on one line, on two lines, and a line and a cycle: the first counts.
const SEVERAL: &str = "direction 5|set a out 1;
direction 5|set a tell 1;
no-port 5|cable a none b bent;
direction 5|cable a gain b bent;
direction 5|cable a in b out;
direction 5|out a gain;
direction 5|at 0 set a bent 1;
kind 5|set a in 1;set a none 1;
direction 5|set a out 1;cable a none b in;
kind 5|cable a out b bend;out a none;
no-port 5|out a none;at 0 set a level 1;
no-state 5|at 0 save b;at 0 patch-get b;
no-patch 6|at 0 save a;at 0 patch-get b;at 0 save b;
no-port 6|cable a out a in;out b none;
cycle a c b|cable b out a in;cable c out b in;cable a out c in;
cycle a c|cable a out b in;cable b out c in;cable c out a in;cable a bent c bend;
cycle a b|cable a out c in;cable c out a in;cable a out b in;cable b out a in;
cycle b|cable b out b in;cable c out c in;cable a out b in;
cycle b c|cable b out c in;cable c out b in;cable a out b in;cable c out a in delayed;";

/// Sessions with a plan: the instances in their order.
const PLANNED: &str = "a b c|
a b c|cable a out b in;cable b out c in;
b c a|cable c out a in;cable b out c in;
a c b|cable c out b in;
c a b|cable c out a in;cable a out b in delayed;cable a out b in;
a b c|cable a out b in;cable b out a in delayed;cable a out a in delayed;
a b c|set a gain 1;cable a tell b ask;cable a bent c bend;out a bent;at 0 set c gain 1;at 0 patch-get a;at 0 save a;";

/// The answer for a session, as the tables have it.
fn answer(alloc: Global, script: &[u8]) -> Result<String, Fail> {
    let session = session(alloc, script)?;
    answer_for(alloc, &session)
}

fn answer_for(alloc: Global, session: &Session) -> Result<String, Fail>
    requires { IsValid session.now }
{
    let decls = decls(alloc, session)?;
    answer_with(alloc, session, decls.as_slice())
}

fn answer_with(alloc: Global, session: &Session, decls: &[Decl]) -> Result<String, Fail>
    requires { IsValid session.now }
{
    if decls.len() != session.insts.len() {
        return Ok(String::from_str(alloc, "no declarations")?);
    }
    match order(alloc, session, decls) {
        Ok(plan) => Ok(names(alloc, session, &plan.order)?),
        Err(fault) => told(alloc, session, fault),
    }
}

fn session(alloc: Global, script: &[u8]) -> Result<Session, Fail>
    ensures { IfOk result IsValid }
{
    if script.len() >= 4_294_967_296 {
        return Err(Fail::from("too long"));
    }
    Ok(read(alloc, script)?)
}

fn told(alloc: Global, session: &Session, fault: GraphFault) -> Result<String, Fail> {
    let told = match fault {
        GraphFault::NoPort(line) => format!(in alloc; "no-port {line}")?,
        GraphFault::Direction(line) => format!(in alloc; "direction {line}")?,
        GraphFault::Kind(line) => format!(in alloc; "kind {line}")?,
        GraphFault::NoPatch(line) => format!(in alloc; "no-patch {line}")?,
        GraphFault::NoState(line) => format!(in alloc; "no-state {line}")?,
        GraphFault::Cycle(cycle) => cycle_told(alloc, session, &cycle)?,
        GraphFault::NoMemory => String::from_str(alloc, "no memory")?,
    };
    Ok(told)
}

fn cycle_told(alloc: Global, session: &Session, cycle: &Items<u32>) -> Result<String, AllocError> {
    let names = names(alloc, session, cycle)?;
    format!(in alloc; "cycle {names}")
}

/// The names of some instances, with a space between.
fn names(alloc: Global, session: &Session, insts: &Items<u32>) -> Result<String, AllocError> {
    let mut names = String::new(alloc);
    for inst in insts.as_slice() {
        if !names.is_empty() {
            names.push(' ')?;
        }
        if let Some(inst) = session.insts.as_slice().get(*inst as usize) {
            names.push_str(inst.name.as_str())?;
        }
    }
    Ok(names)
}

fn assert_answers(rt: &impl Abort, alloc: Global, script: &str, wanted: &str) -> Result<(), Fail> {
    let answer = answer(alloc, script.as_bytes())?;
    assert!(rt; answer.as_str() == wanted, "{answer}, not {wanted}");
    Ok(())
}

fn assert_row(rt: &impl Abort, alloc: Global, lines: &str, wanted: &str) -> Result<(), Fail> {
    let mut script = HEAD.replace(alloc, ';', "\n")?;
    let lines = lines.replace(alloc, ';', "\n")?;
    script.push_str(lines.as_str())?;
    assert_answers(rt, alloc, script.as_str(), wanted)
}

/// Of each line of a table, the script has the answer.
fn assert_table(rt: &impl Abort, alloc: Global, table: &str) -> Result<(), Fail> {
    for row in table.lines() {
        match row.split_once('|') {
            Some((wanted, lines)) => assert_row(rt, alloc, lines, wanted)?,
            None => assert!(rt; false, "no script in {row:?}"),
        }
    }
    Ok(())
}

#[test]
fn first_faults(rt: HostRuntime) -> Result<(), Fail> {
    assert_table(&rt, rt.alloc(), ALONE)?;
    assert_table(&rt, rt.alloc(), SEVERAL)
}

#[test]
fn plans(rt: HostRuntime) -> Result<(), Fail> {
    assert_table(&rt, rt.alloc(), PLANNED)
}

/// A session with as many instances and cables as there may be: each instance is fed by the eight after it, and the first by the
/// last again and again.
fn widest(alloc: Global) -> Result<String, AllocError> {
    let mut script = String::from_str(alloc, "lv2fx 1\n")?;
    for inst in 0..32_u32 {
        script.push_str(format!(in alloc; "inst n{inst} urn:x:all\n")?.as_str())?;
    }
    for target in 0..32_u32 {
        for ahead in 1..9_u32 {
            let source = (target + ahead).min(31);
            let target = if target + ahead < 32 { target } else { 0 };
            script.push_str(format!(in alloc; "cable n{source} out n{target} in\n")?.as_str())?;
        }
    }
    Ok(script)
}

/// The names of 32 instances, the last one first.
fn backward(alloc: Global) -> Result<String, AllocError> {
    let mut names = String::from_str(alloc, "n31")?;
    for behind in 1..32_u32 {
        let inst = 31 - behind;
        names.push_str(format!(in alloc; " n{inst}")?.as_str())?;
    }
    Ok(names)
}

#[test]
fn widest_session(rt: HostRuntime) -> Result<(), Fail> {
    let script = widest(rt.alloc())?;
    let wanted = backward(rt.alloc())?;
    assert_answers(&rt, rt.alloc(), script.as_str(), wanted.as_str())
}

/// A feedback without delay, and the same with it.
const FEEDBACK: &str =
    "lv2fx 1\nblock 1\nblocks 4\ninst c urn:x:all\ninst a urn:x:all\ninst b urn:x:all\nset c gain 0.25\nset b gain 0.5\ncable c out a in\ncable a out b in\ncable b out a in";

#[test]
fn feedback(rt: HostRuntime) -> Result<(), Fail> {
    assert_answers(&rt, rt.alloc(), FEEDBACK, "cycle a b")?;
    let mut delayed = String::from_str(rt.alloc(), FEEDBACK)?;
    delayed.push_str(" delayed\nout a out\n")?;
    assert_answers(&rt, rt.alloc(), delayed.as_str(), "c a b")
}
