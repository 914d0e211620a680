ghost use Rattle.std.specs.Prelude.{◌<◌, ◌^◌};
ghost use Rattle.step_record.specs.Actor.{actor_number};

use lv_base::NoMemory;
use std::process::Abort;
use std::test::Fail;
use step_record::{Actor, Call, Entry, Event, Record, Ring, write};

pub(crate) const LINES: &str = "lv2fx-record 1
C begin make 0
C end activate 31
A block 0
A look R0 1
A take CA
A send J0
A full J0
A long J0
A begin end_run 0
A done 1023
A stop
W1 take CW1
W8 send L2
C send CW2
C take WC1
C take AC
C beat 3
C late 0
C join
end
";

fn push_block(steps: &mut Record) -> Result<(), NoMemory> {
    steps.push(Entry::block(0))?;
    steps.push(Entry::look(Actor::Audio, Ring::Responses(0), 1))?;
    steps.push(Entry::take(Actor::Audio, Ring::ControlToAudio))?;
    steps.push(Entry::send(Actor::Audio, Ring::Jobs(0)))
}

fn push_refusals(steps: &mut Record) -> Result<(), NoMemory> {
    steps.push(Entry::full(Actor::Audio, Ring::Jobs(0)))?;
    steps.push(Entry::long(Actor::Audio, Ring::Jobs(0)))?;
    steps.push(Entry::begin(Actor::Audio, Call::EndRun, 0))?;
    steps.push(Entry::done(1023))?;
    steps.push(Entry::stop(Actor::Audio))
}

fn push_workers(steps: &mut Record) -> Result<(), NoMemory> {
    steps.push(Entry::take(Actor::Worker(1), Ring::ControlToWorker(1)))?;
    steps.push(Entry::send(Actor::Worker(8), Ring::LocalJobs(2)))?;
    steps.push(Entry::send(Actor::Control, Ring::ControlToWorker(2)))?;
    steps.push(Entry::take(Actor::Control, Ring::WorkerToControl(1)))
}

fn push_end(steps: &mut Record) -> Result<(), NoMemory> {
    steps.push(Entry::take(Actor::Control, Ring::AudioToControl))?;
    steps.push(Entry::beat(3))?;
    steps.push(Entry::late(0))?;
    steps.push(Entry::join())?;
    steps.push(Entry::last())
}

fn push_begin(steps: &mut Record) -> Result<(), NoMemory> {
    steps.push(Entry::begin(Actor::Control, Call::Make, 0))?;
    steps.push(Entry::end(Actor::Control, Call::Activate, 31))
}

fn push_all(steps: &mut Record) -> Result<(), NoMemory> {
    push_begin(steps)?;
    push_block(steps)?;
    push_refusals(steps)?;
    push_workers(steps)?;
    push_end(steps)
}

/// The text of the record is this.
pub fn assert_text<R: Abort + AllocGlobal>(
    rt: &R,
    steps: &Record,
    wanted: &str,
) -> Result<(), NoMemory> {
    let text = write(rt.alloc(), steps)?;
    assert!(rt; text.as_slice() == wanted.as_bytes());
    Ok(())
}

#[test]
fn every_kind_of_entry_has_its_line(rt: HostRuntime) -> Result<(), NoMemory> {
    let mut steps = Record::new(rt.alloc());
    push_all(&mut steps)?;
    assert_text(&rt, &steps, LINES)
}

const STOPPING: &str = "lv2fx-record 1
A block 1
A look CA 0
A begin run 0
A end run 0
A begin run 1
A end run 1
A done 1
A stop
C beat 3
C send CW1
W1 take CW1
W1 stop
C join
C begin deactivate 0
C end deactivate 0
";

fn push_call(steps: &mut Record, actor: Actor, call: Call, inst: u32) -> Result<(), NoMemory>
    requires { actor_number actor < 2 ^ 32 }
{
    steps.push(Entry::begin(actor, call, inst))?;
    steps.push(Entry::end(actor, call, inst))
}

fn push_stopping(steps: &mut Record) -> Result<(), NoMemory> {
    let worker = Actor::Worker(1);
    let ring = Ring::ControlToWorker(1);
    steps.push(Entry::stop(Actor::Audio))?;
    steps.push(Entry::beat(3))?;
    steps.push(Entry::send(Actor::Control, ring))?;
    steps.push(Entry::take(worker, ring))?;
    steps.push(Entry::stop(worker))?;
    steps.push(Entry::join())?;
    push_call(steps, Actor::Control, Call::Deactivate, 0)
}

fn push_block_1(steps: &mut Record) -> Result<(), NoMemory> {
    steps.push(Entry::block(1))?;
    steps.push(Entry::look(Actor::Audio, Ring::ControlToAudio, 0))?;
    push_call(steps, Actor::Audio, Call::Run, 0)?;
    push_call(steps, Actor::Audio, Call::Run, 1)?;
    steps.push(Entry::done(1))
}

#[test]
fn a_plain_block_and_the_stop_have_their_lines(rt: HostRuntime) -> Result<(), Fail> {
    let mut steps = Record::new(rt.alloc());
    push_block_1(&mut steps)?;
    push_stopping(&mut steps)?;
    assert_text(&rt, &steps, STOPPING)?;
    Ok(())
}

const JOBS: &str = "lv2fx-record 1
A block 0
A look CA 0
A begin run 0
A send J0
A end run 0
W1 take J0
W1 begin work 0
W1 send R0
W1 end work 0
A look R0 1
A take R0
A begin response 0
A end response 0
A begin end_run 0
A end end_run 0
A done 0
";

fn push_run(steps: &mut Record) -> Result<(), NoMemory> {
    steps.push(Entry::block(0))?;
    steps.push(Entry::look(Actor::Audio, Ring::ControlToAudio, 0))?;
    steps.push(Entry::begin(Actor::Audio, Call::Run, 0))?;
    steps.push(Entry::send(Actor::Audio, Ring::Jobs(0)))?;
    steps.push(Entry::end(Actor::Audio, Call::Run, 0))
}

fn push_work(steps: &mut Record) -> Result<(), NoMemory> {
    let worker = Actor::Worker(1);
    steps.push(Entry::take(worker, Ring::Jobs(0)))?;
    steps.push(Entry::begin(worker, Call::Work, 0))?;
    steps.push(Entry::send(worker, Ring::Responses(0)))?;
    steps.push(Entry::end(worker, Call::Work, 0))
}

fn push_response(steps: &mut Record) -> Result<(), NoMemory> {
    steps.push(Entry::look(Actor::Audio, Ring::Responses(0), 1))?;
    steps.push(Entry::take(Actor::Audio, Ring::Responses(0)))?;
    push_call(steps, Actor::Audio, Call::Response, 0)?;
    push_call(steps, Actor::Audio, Call::EndRun, 0)?;
    steps.push(Entry::done(0))
}

#[test]
fn a_block_with_a_job_has_its_lines(rt: HostRuntime) -> Result<(), Fail> {
    let mut steps = Record::new(rt.alloc());
    push_run(&mut steps)?;
    push_work(&mut steps)?;
    push_response(&mut steps)?;
    assert_text(&rt, &steps, JOBS)?;
    Ok(())
}

/// The entry tells of an event, and the event makes it again.
fn assert_event<R: Abort>(rt: &R, entry: Entry) {
    let told = entry.event();
    assert!(rt; matches!(told, Some(_)));
    if let Some(event) = told {
        let actor = Actor::from_number(entry.actor);
        assert!(rt; event.is_told_by(actor) && Entry::from_event(actor, event) == entry);
    }
}

#[test]
fn entries_with_a_form_tell_of_events(rt: HostRuntime) {
    assert_event(&rt, Entry::look(Actor::Audio, Ring::Responses(31), 7));
    assert_event(&rt, Entry::end(Actor::Worker(8), Call::RestoreSafe, 31));
    assert_event(&rt, Entry::take(Actor::Control, Ring::WorkerToControl(8)));
    assert_event(&rt, Entry::last());
}

#[test]
fn entries_without_a_form_tell_of_nothing(rt: HostRuntime) {
    assert!(rt; Entry::begin(Actor::Audio, Call::Work, 0).event().is_none());
    assert!(rt; Entry::begin(Actor::Audio, Call::Run, 32).event().is_none());
    assert!(rt;
        Entry::send(Actor::Worker(9), Ring::Jobs(0))
            .event()
            .is_none()
    );
}

#[test]
fn control_never_looks(rt: HostRuntime) {
    let look = Event::Look(Ring::AudioToControl, 1);
    assert!(rt; look.is_told_by(Actor::Audio) && !look.is_told_by(Actor::Control));
    assert!(rt;
        Entry::full(Actor::Control, Ring::ControlToAudio)
            .event()
            .is_none()
    );
}
