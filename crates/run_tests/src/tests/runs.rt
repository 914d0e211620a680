use super::sessions::{Plan, is_playable, session};
use super::steps::assert_text;
use super::toy::Toys;
use lv_base::NoMemory;
use replay_core::{Outcome, keeps_threading_classes, render};
use std::alloc::Global;
use std::process::Abort;

const QUARTER: i64 = 4_194_304;

const CONST: &str = "urn:lv2fx:const";

const AMP: &str = "urn:lv2fx:amp";

/// What the run of a session gives.
fn outcome_of(rt: &impl Abort, alloc: Global, plan: &Plan<'_>) -> Result<Outcome, NoMemory> {
    let session = session(alloc, plan)?;
    assert!(rt; is_playable(&session));
    render(alloc, &session, &Toys)
}

/// What is given by a constant of one quarter, an amplifier, and a cable from one to the other, which is heard.
fn constant_and_amplifier(
    rt: &impl Abort,
    alloc: Global,
    blocks: u32,
) -> Result<Outcome, NoMemory> {
    let plan = Plan {
        block: 4,
        blocks,
        insts: &[("c", CONST), ("g", AMP)],
        sets: &[(0, QUARTER)],
        cables: &[(0, 1)],
        outs: &[1],
    };
    outcome_of(rt, alloc, &plan)
}

const RECORD: &str = "lv2fx-record 1
C begin make 0
C end make 0
C begin make 1
C end make 1
C begin activate 0
C end activate 0
C begin activate 1
C end activate 1
A block 0
A look CA 0
A begin run 0
A end run 0
A begin run 1
A end run 1
A done 0
A block 1
A look CA 0
A begin run 0
A end run 0
A begin run 1
A end run 1
A done 1
A stop
C beat 3
C send CW1
W1 take CW1
W1 stop
C join
C begin deactivate 0
C end deactivate 0
C begin deactivate 1
C end deactivate 1
C begin cleanup 0
C end cleanup 0
C begin cleanup 1
C end cleanup 1
end
";

const SUMMARY: &str = "lv2fx render
frames 8 channels 1
inst c runs 2 jobs 0 refused 0 worked 0 responses 0 dropped 0 delivered 0 errors 0
inst g runs 2 jobs 0 refused 0 worked 0 responses 0 dropped 0 delivered 0 errors 0
saves 0
late 0
lost 0
entries 36
";

/// A run gives this sound, and so many entries.
fn assert_sound<R: Abort>(rt: &R, outcome: &Outcome, sound: &[u8], entries: usize) {
    assert!(rt; outcome.pcm.as_slice() == sound);
    assert!(rt; outcome.steps.entries().len() == entries);
}

#[test]
fn a_run_gives_its_record(rt: HostRuntime) -> Result<(), NoMemory> {
    let outcome = constant_and_amplifier(&rt, rt.alloc(), 2)?;
    assert_text(&rt, &outcome.steps, RECORD)
}

#[test]
fn a_run_gives_its_sound_and_its_summary(rt: HostRuntime) -> Result<(), NoMemory> {
    let outcome = constant_and_amplifier(&rt, rt.alloc(), 2)?;
    let quarter = b"\0\x20\0\x20\0\x20\0\x20\0\x20\0\x20\0\x20\0\x20";
    assert_sound(&rt, &outcome, quarter, 37);
    assert!(rt; outcome.summary.as_slice() == SUMMARY.as_bytes());
    Ok(())
}

#[test]
fn a_run_without_blocks_is_silent(rt: HostRuntime) -> Result<(), NoMemory> {
    let outcome = constant_and_amplifier(&rt, rt.alloc(), 0)?;
    // 22 entries, and the end
    assert_sound(&rt, &outcome, &[], 23);
    keeps_threading_classes(2, 0);
    Ok(())
}

/// Three constants, and an amplifier that gets their sum. They are 100, 28.25 and -128: the first two together are past
/// the greatest sample, which is just below 128. One of them is set twice.
#[test]
fn a_mix_is_clamped_once(rt: HostRuntime) -> Result<(), NoMemory> {
    let plan = Plan {
        block: 1,
        blocks: 1,
        insts: &[("p", CONST), ("q", CONST), ("r", CONST), ("g", AMP)],
        sets: &[
            (0, 1_677_721_600),
            (1, QUARTER),
            (1, 473_956_352),
            (2, -2_147_483_648),
        ],
        cables: &[(0, 3), (1, 3), (2, 3)],
        outs: &[3],
    };
    let outcome = outcome_of(&rt, rt.alloc(), &plan)?;
    assert!(rt; outcome.pcm.as_slice() == [0, 0x20].as_slice());
    Ok(())
}
