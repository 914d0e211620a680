//! What scripts say, what they break, and which of their lines can't be played yet.
use session_script::{
    Action, CableLine, Deed, Inst, ScriptFault, Session, SetLine, first_later, read,
};
use std::alloc::{AllocError, Global};
use std::process::Abort;
use std::test::Fail;

/// A line of each kind, and what may stand around lines and words.
const WHOLE: &str =
    "# a session\r\n\tlv2fx  1\nblocks 20\r\nblock 0064\nworkers 2\n\nbundle plug/ins/\ninst a urn:x:a\ninst _b2 urn:x:b 2\nset a level -0.5\n  # wires\ncable a out _b2 in\ncable _b2 out a in delayed\nout _b2 out\nat 3 set a level 1e-6\nat 3 patch-set a urn:p int -7\nat 4 patch-set a urn:p fixed .5\nat 4 patch-get a\nat 4 patch-get a urn:p\nat 20 save a\nat 20 restore _b2 states/s.ttl 01";

/// The block, the instance and the number of each of its actions.
const ACTIONS: &str = "3 0 17\n3 0 -7\n4 0 8388608\n4 0 0\n4 0 0\n20 0 0\n20 1 1\n";

/// Scripts that break one rule, each with the line and the rule. `;` ends a line of a script.
const ALONE: &str = "1 Head|
1 Head|# nothing;;
3 Head|;# no;lv2fx 2;
1 Head|\u{feff}lv2fx 1;
2 Word|lv2fx 1;lv2fx 1;
2 Word|lv2fx 1;Block 4;
3 Word|lv2fx 1;inst a urn:x;at 0 stop a;
3 Order|lv2fx 1;inst a urn:x;block 4;
3 Order|lv2fx 1;inst a urn:x;bundle b;
4 Twice|lv2fx 1;block 4;blocks 2;block 4;
2 Count|lv2fx 1;block;
2 Count|lv2fx 1;at 0;
2 Count|lv2fx 1;inst a urn:x 1 1;
2 Number|lv2fx 1;block -4;
3 Number|lv2fx 1;inst a urn:x;set a gain 1.;
3 Number|lv2fx 1;inst a urn:x;at 0 patch-set a urn:p int 1.0;
3 Range|lv2fx 1;block 4;blocks 65537;
2 Range|lv2fx 1;block 0;
2 Range|lv2fx 1;rate 99999999999999999999;
2 Range|lv2fx 1;cells 65;
2 Range|lv2fx 1;record 4194305;
2 Range|lv2fx 1;inst a urn:x 2;
3 Range|lv2fx 1;inst a urn:x;set a gain 549755813888;
3 Range|lv2fx 1;inst a urn:x;at 0 patch-set a urn:p int 2147483648;
3 Range|lv2fx 1;inst a urn:x;at 0 restore a p 4294967296;
2 Name|lv2fx 1;inst 2a urn:x;
2 Name|lv2fx 1;inst a23456789012345678901234567890123 urn:x;
3 Name|lv2fx 1;inst a urn:x;out a o-1;
3 Same|lv2fx 1;inst a urn:x;inst a urn:x;
3 Unknown|lv2fx 1;inst a urn:x;cable a out b in;
2 Path|lv2fx 1;bundle /b;
2 Path|lv2fx 1;bundle b//;
2 Path|lv2fx 1;bundle /;
2 Path|lv2fx 1;bundle a/../b;
3 Path|lv2fx 1;inst a urn:x;at 0 restore a b/ 0;
2 Iri|lv2fx 1;inst a x;
2 Iri|lv2fx 1;inst a urn:{x};
3 Iri|lv2fx 1;inst a urn:x;at 0 patch-get a p;
3 Block|lv2fx 1;inst a urn:x;at 1 save a;
5 Block|lv2fx 1;blocks 9;inst a urn:x;at 5 save a;at 4 save a;
3 Block|lv2fx 1;inst a urn:x;at 99999999999999999999 save a;
3 Form|lv2fx 1;inst a urn:x;cable a out a in late;
3 Form|lv2fx 1;inst a urn:x;at 0 patch-set a urn:p float x;";

/// Scripts with several broken rules on a line or on two, each with the line and the rule that count.
const SEVERAL: &str = "1 Head|block x y;
4 Order|lv2fx 1;block 4;inst a urn:x;block 4;
3 Twice|lv2fx 1;block 4;block;
2 Count|lv2fx 1;block x y;
3 Number|lv2fx 1;inst a urn:x;at x restore a p 4294967296;
2 Range|lv2fx 1;inst 2a urn:x 9;
3 Name|lv2fx 1;inst a urn:x;set 2b gain 1;
3 Same|lv2fx 1;inst a urn:x;inst a x;
3 Unknown|lv2fx 1;inst a urn:x;at 0 restore b /p 0;
3 Path|lv2fx 1;inst a urn:x;at 1 restore a .. 0;
3 Iri|lv2fx 1;inst a urn:x;at 1 patch-get a p;
3 Block|lv2fx 1;inst a urn:x;at 1 patch-set a urn:p float 1;
2 Iri|lv2fx 1;inst a x;block 4;";

/// Sessions, each with its first line that can't be played yet.
const PLAYED: &str = "played|lv2fx 1
played|# a chain;lv2fx 1;blocks 1024;block 4;inst a urn:lv2fx:const;inst b urn:lv2fx:amp;set a value .5;set b gain -2;cable a out b in;cable a out b in;out b out;
3 later|lv2fx 1;block 4;rate 48000;
4 later|lv2fx 1;block 4;blocks 2;workers 2;
3 later|lv2fx 1;block 4096;blocks 1025;
2 later|lv2fx 1;bundle b;
2 later|lv2fx 1;inst a urn:lv2fx:echo;
2 later|lv2fx 1;inst a urn:lv2fx:amp 1;
3 later|lv2fx 1;inst a urn:lv2fx:amp;set a value 1;
3 later|lv2fx 1;inst a urn:lv2fx:const;set a gain 1;
4 later|lv2fx 1;inst a urn:lv2fx:amp;inst b urn:lv2fx:amp;cable b out a in;
3 later|lv2fx 1;inst a urn:lv2fx:amp;cable a out a in;
4 later|lv2fx 1;inst a urn:lv2fx:amp;inst b urn:lv2fx:const;cable a out b in;
4 later|lv2fx 1;inst a urn:lv2fx:amp;inst b urn:lv2fx:amp;cable a left b in;
4 later|lv2fx 1;inst a urn:lv2fx:amp;inst b urn:lv2fx:amp;cable a out b gain;
4 later|lv2fx 1;inst a urn:lv2fx:amp;inst b urn:lv2fx:amp;cable a out b in delayed;
3 later|lv2fx 1;inst a urn:lv2fx:amp;out a in;
3 later|lv2fx 1;inst a urn:lv2fx:amp;at 0 save a;
2 later|lv2fx 1;inst a urn:x;out a in;";

/// Why bytes are no session, if they aren't.
fn fault_of(alloc: Global, script: &[u8]) -> Option<ScriptFault> {
    if script.len() >= 4_294_967_296 {
        return None;
    }
    read(alloc, script).err()
}

/// The first line of a session that can't be played yet.
fn later_in(alloc: Global, script: &[u8]) -> Option<u32> {
    if script.len() >= 4_294_967_296 {
        return None;
    }
    match read(alloc, script) {
        Ok(session) => first_later(script, &session),
        Err(_) => None,
    }
}

/// What a script's reader answers, as the tables have it.
fn answer(alloc: Global, script: &[u8]) -> Result<String, AllocError> {
    match fault_of(alloc, script) {
        Some(ScriptFault::Bad(line, rule)) => format!(in alloc; "{line} {rule:?}"),
        Some(fault) => format!(in alloc; "{fault}"),
        None => answer_later(alloc, script),
    }
}

fn answer_later(alloc: Global, script: &[u8]) -> Result<String, AllocError> {
    match later_in(alloc, script) {
        Some(line) => format!(in alloc; "{line} later"),
        None => String::from_str(alloc, "played"),
    }
}

fn assert_answers(rt: &impl Abort, alloc: Global, script: &[u8], wanted: &str) -> Result<(), Fail> {
    let answer = answer(alloc, script)?;
    assert!(rt; answer.as_str() == wanted, "{answer}, not {wanted}");
    Ok(())
}

/// A script whose lines end with `;`.
fn script(alloc: Global, lines: &str) -> Result<String, AllocError> {
    lines.replace(alloc, ';', "\n")
}

fn assert_row(rt: &impl Abort, alloc: Global, lines: &str, wanted: &str) -> Result<(), Fail> {
    let script = script(alloc, lines)?;
    assert_answers(rt, alloc, script.as_bytes(), wanted)
}

/// Of each line of a table, the script has the answer.
fn assert_table(rt: &impl Abort, alloc: Global, table: &str) -> Result<(), Fail> {
    for row in table.lines() {
        match row.split_once('|') {
            Some((wanted, lines)) => assert_row(rt, alloc, lines, wanted)?,
            None => assert!(rt; false, "no script in {row:?}"),
        }
    }
    Ok(())
}

#[test]
fn first_broken_rules(rt: HostRuntime) -> Result<(), Fail> {
    assert_table(&rt, rt.alloc(), ALONE)?;
    assert_table(&rt, rt.alloc(), SEVERAL)
}

#[test]
fn first_later_lines(rt: HostRuntime) -> Result<(), Fail> {
    assert_table(&rt, rt.alloc(), PLAYED)
}

// A carriage return is dropped before a line feed alone. Bytes that are no text break the first rule of all.
#[test]
fn single_bytes(rt: HostRuntime) -> Result<(), Fail> {
    assert_answers(&rt, rt.alloc(), b"lv2fx 1\nblock 4\r", "2 Number")?;
    assert_answers(&rt, rt.alloc(), b"block\n\nab\xFFc\n", "3 Utf8")
}

/// A script that goes on with so many of a line.
fn with_lines(alloc: Global, front: &str, line: &str, count: u32) -> Result<String, AllocError> {
    let mut script = script(alloc, front)?;
    for _ in 0..count {
        script.push_str(line)?;
    }
    Ok(script)
}

/// So many of a line may stand there.
fn assert_most(
    rt: &impl Abort,
    alloc: Global,
    front: &str,
    line: &str,
    most: u32,
) -> Result<(), Fail> {
    let script = with_lines(alloc, front, line, most)?;
    assert!(rt; fault_of(alloc, script.as_bytes()).is_none(), "{line}");
    Ok(())
}

/// So many of a line may stand there, and one more passes a limit.
fn assert_limit(
    rt: &impl Abort,
    alloc: Global,
    front: &str,
    line: &str,
    most: u32,
    wanted: &str,
) -> Result<(), Fail> {
    assert_most(rt, alloc, front, line, most)?;
    let mut script = with_lines(alloc, front, line, most)?;
    script.push_str(line)?;
    assert_answers(rt, alloc, script.as_bytes(), wanted)
}

#[test]
fn limits(rt: HostRuntime) -> Result<(), Fail> {
    assert_limit(
        &rt,
        rt.alloc(),
        "lv2fx 1;",
        "bundle b\n",
        64,
        "65 is too many for Bundles",
    )?;
    let front = "lv2fx 1;inst a urn:x;";
    assert_limit(
        &rt,
        rt.alloc(),
        front,
        "cable a o a i\n",
        256,
        "257 is too many for Cables",
    )?;
    assert_limit(
        &rt,
        rt.alloc(),
        front,
        "out a o\n",
        8,
        "9 is too many for Outputs",
    )
}

#[test]
fn limits_of_actions(rt: HostRuntime) -> Result<(), Fail> {
    let front = "lv2fx 1;inst a urn:x;";
    assert_limit(
        &rt,
        rt.alloc(),
        front,
        "at 0 patch-get a\n",
        1024,
        "1025 is too many for Actions",
    )?;
    assert_limit(
        &rt,
        rt.alloc(),
        front,
        "at 0 save a\n",
        128,
        "129 is too many for Saves",
    )
}

// 8 channels of 1024 blocks of 4096 frames are 2^25 samples.
#[test]
fn samples_up_to_2_25(rt: HostRuntime) -> Result<(), Fail> {
    let front = "lv2fx 1;block 4096;blocks 1024;inst a urn:x;";
    assert_most(&rt, rt.alloc(), front, "out a o\n", 8)?;
    let more =
        "lv2fx 1;block 4096;blocks 1025;inst a urn:x;out a o;out a o;out a o;out a o;out a o;out a o;out a o;out a o;";
    assert_row(&rt, rt.alloc(), more, "33587200 is too many for Samples")
}

/// A script of as many instances.
fn instances(alloc: Global, count: u32) -> Result<String, AllocError> {
    let mut script = String::from_str(alloc, "lv2fx 1\n")?;
    for number in 0..count {
        push_instance(alloc, &mut script, number)?;
    }
    Ok(script)
}

fn push_instance(alloc: Global, script: &mut String, number: u32) -> Result<(), AllocError> {
    let line = format!(in alloc; "inst a{number} urn:x\n")?;
    script.push_str(line.as_str())
}

fn assert_instances(rt: &impl Abort, alloc: Global, count: u32, wanted: &str) -> Result<(), Fail> {
    let script = instances(alloc, count)?;
    assert_answers(rt, alloc, script.as_bytes(), wanted)
}

#[test]
fn instances_up_to_32(rt: HostRuntime) -> Result<(), Fail> {
    assert_instances(&rt, rt.alloc(), 32, "2 later")?;
    assert_instances(&rt, rt.alloc(), 33, "33 is too many for Instances")
}

// A broken line goes before a limit that is passed above it.
#[test]
fn line_before_limit(rt: HostRuntime) -> Result<(), Fail> {
    let mut script = instances(rt.alloc(), 33)?;
    script.push_str("inst a7 urn:x\n")?;
    assert_answers(&rt, rt.alloc(), script.as_bytes(), "35 Same")
}

fn assert_settings(rt: &impl Abort, session: &Session) {
    assert!(rt; session.rate == 48_000 && session.block == 64);
    assert!(rt; session.blocks == 20 && session.workers == 2 && session.cells == 8);
    assert!(rt; session.reserve.is_none());
}

fn assert_bundles(rt: &impl Abort, session: &Session) {
    let bundles = session.bundles.as_slice();
    assert!(rt; bundles.len() == 1);
    assert!(rt; bundles[0].as_str() == "plug/ins");
}

fn assert_insts(rt: &impl Abort, insts: &[Inst]) {
    assert!(rt; insts.len() == 2);
    assert!(rt; insts[0].worker.is_none());
    assert_second_inst(rt, &insts[1]);
}

fn assert_second_inst(rt: &impl Abort, inst: &Inst) {
    assert!(rt; inst.name.as_str() == "_b2");
    assert!(rt; inst.uri.as_str() == "urn:x:b");
    assert!(rt; inst.worker.unwrap_or(0) == 2 && inst.line == 9);
}

fn assert_sets(rt: &impl Abort, sets: &[SetLine]) {
    assert!(rt; sets.len() == 1);
    assert_set(rt, &sets[0]);
}

fn assert_set(rt: &impl Abort, set: &SetLine) {
    assert!(rt; set.inst == 0 && set.line == 10);
    assert!(rt; set.symbol.as_str() == "level");
    assert!(rt; set.value.0 == -8_388_608);
}

fn assert_cables(rt: &impl Abort, cables: &[CableLine]) {
    assert!(rt; cables.len() == 2);
    assert!(rt; cables[1].source == 1 && cables[1].target == 0);
    assert!(rt; cables[1].delayed && !cables[0].delayed);
}

/// The number that an action carries, if it carries one.
fn number_of(deed: &Deed) -> i64 {
    match deed {
        Deed::Set { symbol: _, value } => value.0,
        Deed::PatchFixed { property: _, value } => value.0,
        Deed::PatchInt { property: _, value } => i64::from(*value),
        Deed::Restore { path: _, place } => i64::from(*place),
        _ => 0,
    }
}

fn told_action(alloc: Global, action: &Action) -> Result<String, AllocError> {
    let number = number_of(&action.deed);
    format!(in alloc; "{} {} {number}\n", action.block, action.inst)
}

fn told_actions(alloc: Global, actions: &[Action]) -> Result<String, AllocError> {
    let mut text = String::new(alloc);
    for action in actions {
        let line = told_action(alloc, action)?;
        text.push_str(line.as_str())?;
    }
    Ok(text)
}

fn assert_actions(rt: &impl Abort, alloc: Global, actions: &[Action]) -> Result<(), Fail> {
    let told = told_actions(alloc, actions)?;
    assert!(rt; told.as_str() == ACTIONS, "{told}");
    Ok(())
}

fn assert_whole(rt: &impl Abort, alloc: Global, session: &Session) -> Result<(), Fail> {
    assert_settings(rt, session);
    assert_bundles(rt, session);
    assert_insts(rt, session.insts.as_slice());
    assert_sets(rt, session.sets.as_slice());
    assert_cables(rt, session.cables.as_slice());
    assert_actions(rt, alloc, session.actions.as_slice())
}

#[test]
fn whole_session(rt: HostRuntime) -> Result<(), Fail> {
    let session = read(rt.alloc(), WHOLE.as_bytes())?;
    assert_whole(&rt, rt.alloc(), &session)
}
