//! Summaries worked out by hand.

use super::setups::setup;
use call_tally::note_call;
use graph_order::Setup;
use lv_base::{Bytes, Fixed, Items, NoMemory};
use record_terms::Message;
use run_summary::{Report, Tally, write_summary};
use std::alloc::Global;
use std::process::Abort;
use std::test::Fail;
use step_law::{Actor, Call, Entry, Ring};
use step_record::{Record, read};

/// One block of a burst of three jobs, where there is room for two.
const BURST: &[u8] = b"lv2fx 1
block 1
blocks 1
cells 2
inst b urn:lv2fx:burst
";

const RECORD: &[u8] = b"lv2fx-record 1
C begin make 0
C end make 0
C begin activate 0
C end activate 0
A block 0
A look CA 0
A begin run 0
A send J0
A send J0
A full J0
A end run 0
W1 take J0
W1 begin work 0
W1 send R0
W1 end work 0
W1 take J0
W1 begin work 0
W1 send R0
W1 end work 0
A look R0 2
A take R0
A begin response 0
A end response 0
A take R0
A begin response 0
A end response 0
A begin end_run 0
A end end_run 0
A done 0
A stop
C beat 2
C send CW1
W1 take CW1
W1 stop
C join
C begin deactivate 0
C end deactivate 0
C begin cleanup 0
C end cleanup 0
end
";

const BURST_SUMMARY: &str = "lv2fx render
frames 1 channels 0
inst b runs 1 jobs 2 refused 1 worked 2 responses 2 dropped 0 delivered 2 errors 0
value b ok 33554432
value b refused 16777216
saves 0
late 0
lost 0
entries 39
";

/// Actions of each kind.
const ACTIONS: &[u8] = b"lv2fx 1
block 2
blocks 3
inst t urn:lv2fx:burst
out t out
at 0 set t jobs 1
at 0 patch-get t
at 1 restore t s.ttl 0
at 2 save t
";

/// Audio takes the value and not the message. Two notices are lost; a front that finds no room isn't.
fn steps() -> [(Entry, Message); 9] {
    let audio = Actor::Audio;
    let worker = Actor::Worker(1);
    [
        (Entry::take(audio, Ring::ControlToAudio), Message::Input(0)),
        (Entry::full(audio, Ring::AudioToControl), Message::Notice(0)),
        (Entry::long(audio, Ring::AudioToControl), Message::Notice(0)),
        (Entry::full(audio, Ring::AudioToControl), Message::Part(0)),
        (Entry::send(worker, Ring::LocalJobs(0)), Message::Body),
        (Entry::full(worker, Ring::LocalJobs(0)), Message::Body),
        (Entry::long(worker, Ring::Responses(0)), Message::Body),
        (Entry::end(worker, Call::Work, 0), Message::Body),
        (Entry::last(), Message::Nothing),
    ]
}

const ACTIONS_SUMMARY: &str = "lv2fx play
frames 6 channels 1
inst t runs 0 jobs 1 refused 1 worked 1 responses 0 dropped 1 delivered 0 errors 1
value t ok -1
value t refused 0
notice t other
restore t 5
saves 1
late 1
lost 2
entries 8
";

fn values(alloc: Global, values: &[Fixed]) -> Result<Items<Items<Fixed>>, NoMemory> {
    let mut insts = Items::new(alloc);
    insts.push(Items::from_slice(alloc, values)?)?;
    Ok(insts)
}

fn burst_report(alloc: Global) -> Result<Report, NoMemory> {
    Ok(Report {
        values: values(alloc, &[Fixed(33_554_432), Fixed(16_777_216)])?,
        notices: Bytes::new(alloc),
        statuses: Items::new(alloc),
        saves: 0,
    })
}

fn actions_report(alloc: Global) -> Result<Report, NoMemory> {
    Ok(Report {
        values: values(alloc, &[Fixed(-1), Fixed(0)])?,
        notices: Bytes::from_slice(alloc, b"notice t other\n")?,
        statuses: Items::from_slice(alloc, &[None, None, Some(5), None])?,
        saves: 1,
    })
}

fn note_all(tally: &mut Tally, steps: &Record) {
    for entry in steps.entries() {
        tally.note(*entry, Message::Nothing);
    }
}

fn is_told(
    alloc: Global,
    command: &str,
    setup: &Setup,
    tally: &Tally,
    report: &Report,
    expected: &str,
) -> Result<bool, NoMemory> {
    let mut text = Bytes::new(alloc);
    write_summary(&mut text, command, setup, tally, report)?;
    Ok(text.as_slice() == expected.as_bytes())
}

fn is_burst_told(alloc: Global) -> Result<bool, Fail> {
    let setup = setup(alloc, BURST)?;
    let mut tally = Tally::new(alloc, &setup)?;
    let steps = read(alloc, RECORD)?;
    note_all(&mut tally, &steps);
    let report = burst_report(alloc)?;
    Ok(is_told(alloc, "render", &setup, &tally, &report, BURST_SUMMARY)?)
}

fn are_actions_told(alloc: Global) -> Result<bool, Fail> {
    let setup = setup(alloc, ACTIONS)?;
    let mut tally = Tally::new(alloc, &setup)?;
    for (entry, about) in steps() {
        tally.note(entry, about);
    }
    tally.failed(0);
    let report = actions_report(alloc)?;
    Ok(is_told(alloc, "play", &setup, &tally, &report, ACTIONS_SUMMARY)?)
}

/// A run that sends a job and finds no room for another: of one instance 1 run, 1 job and 1 refused.
fn is_call_counted(alloc: Global) -> Result<bool, Fail> {
    let setup = setup(alloc, BURST)?;
    let mut tally = Tally::new(alloc, &setup)?;
    let audio = Actor::Audio;
    let entries = [
        (7, Entry::begin(audio, Call::Run, 0)),
        (8, Entry::send(audio, Ring::Jobs(0))),
        (9, Entry::full(audio, Ring::Jobs(0))),
        (10, Entry::end(audio, Call::Run, 0)),
    ];
    note_call(&mut tally, &entries, Message::Nothing);
    let counts = tally.of(0);
    Ok(counts.runs == 1 && counts.jobs == 1 && counts.refused == 1 && counts.worked == 0)
}

#[test]
fn a_call_is_counted(rt: HostRuntime) -> Result<(), Fail> {
    assert!(rt; is_call_counted(rt.alloc())?);
    Ok(())
}

#[test]
fn a_burst_is_told(rt: HostRuntime) -> Result<(), Fail> {
    assert!(rt; is_burst_told(rt.alloc())?);
    Ok(())
}

#[test]
fn actions_are_told(rt: HostRuntime) -> Result<(), Fail> {
    assert!(rt; are_actions_told(rt.alloc())?);
    Ok(())
}
