ghost use Rattle.std.specs.Prelude.{◌≡◌, ◌≤◌, ◌++◌, List, length, IfOk, OnOk};
ghost use Rattle.interaction.specs.Attempts.{Attempt};
ghost use Rattle.plug_api.specs.Inputs.{Outputs};
ghost use Rattle.plug_api.specs.Ports.{ports_of, places_of, outs_of, inputs_of, IsLent, IsSameLoan};
ghost use Rattle.plug_api.specs.Running.{with_outputs, AreOutputs};
ghost use Rattle.record_law.specs.Message.Message.{nothing};
ghost use Rattle.record_terms.specs.Message.{meaning_of};
ghost use Rattle.record_terms.specs.Session.{IsSession};
ghost use Rattle.step_law.specs.declared.call.Call.TheVariants as calls;
ghost use Rattle.judged_log.specs.Followed.{IsFollowed, entries_of};
ghost use Rattle.session_play.specs.Value.{ran, worked};
ghost use Rattle.play_known.specs.InCall.{sent_among};
ghost use Rattle.told_calls.specs.GoingOn.{GoesOnBy, RunCall, WorkCall, RestoreSafeCall, trying_call};

use crate::judging::{judge, judge_unasked};
use arrayvec::ArrayVec;
use instance_class::{BackOf, FrontOf};
use judged_log::{Halt, JudgedLog};
use list_calls::Caller;
use plug_api::{Codes, Ports};
use record_law::Shape;
use record_terms::Message;
use state_store::Props;
use step_record::Parcel;

/// Plays one block. Its jobs go to a list of bodies that wait.
pub fn run<C: Codes>(
    front: &mut FrontOf<C>,
    ports: &mut Ports<'_>,
    jobs: &mut ArrayVec<Parcel, 64>,
    caller: Caller,
    log: &mut JudgedLog,
    shape: &Shape,
) -> Result<(), Halt>
    requires ports { ports_of ports.old ≡ front.old.ports }
    requires lent { IsLent ports.old }
    requires some_cells { 1 ≤ caller.cells }
    requires cells { caller.cells ≤ 64 }
    requires list { length jobs.old.items ≤ caller.cells }
    requires session { IsSession shape.now }
    requires followed { IsFollowed shape.now (entries_of log.old.log.items) log.old.follower }
    requires spare { 18 ≤ log.old.log.spare }
    ensures followed { OnOk result (IsFollowed shape.now (entries_of log.new.log.items) log.new.follower) }
    ensures ran { OnOk result ((outputs : Outputs) × (told : List Attempt) × AreOutputs (ports_of ports.old) (inputs_of ports.old).frames outputs
        × (outs_of ports.new ≡ with_outputs (places_of ports.old) (outs_of ports.old) outputs)
        × (jobs.new.items ≡ jobs.old.items ++ sent_among told)
        × GoesOnBy C.Front C.Back (RunCall C.Front.meaning caller front.old.inst front.old.part (inputs_of ports.old)) shape.now (entries_of log.old.log.items) (entries_of log.new.log.items)
        (trying_call caller calls.Run front.old.inst nothing told (ran front.new.part outputs))) }
    ensures front { front.new ≡ record front.old { part = front.new.part } }
    ensures same_loan { IsSameLoan ports.old ports.new }
{
    let from = log.len();
    list_calls::run(front, ports, jobs, caller, &mut log.log);
    judge_unasked(log, shape, from)
}

/// Does a job: the body that the actor took last. Its responses go to a list of bodies that wait. The answer is a status.
pub fn work<C: Codes>(
    back: &mut BackOf<C>,
    body: &[u8],
    responses: &mut ArrayVec<Parcel, 64>,
    caller: Caller,
    log: &mut JudgedLog,
    shape: &Shape,
) -> Result<u8, Halt>
    requires some_cells { 1 ≤ caller.cells }
    requires cells { caller.cells ≤ 64 }
    requires list { length responses.old.items ≤ caller.cells }
    requires session { IsSession shape.now }
    requires followed { IsFollowed shape.now (entries_of log.old.log.items) log.old.follower }
    requires spare { 18 ≤ log.old.log.spare }
    ensures followed { IfOk result (λ status. IsFollowed shape.now (entries_of log.new.log.items) log.new.follower) }
    ensures worked { IfOk result (λ status. (told : List Attempt) × (responses.new.items ≡ responses.old.items ++ sent_among told)
        × GoesOnBy C.Front C.Back (WorkCall C.Back.meaning caller back.old.inst back.old.part body.now) shape.now (entries_of log.old.log.items) (entries_of log.new.log.items)
        (trying_call caller calls.Work back.old.inst nothing told (worked back.new.part status))) }
    ensures back { back.new ≡ record back.old { part = back.new.part } }
{
    let from = log.len();
    let status = list_calls::work(back, body, responses, caller, &mut log.log);
    judge_unasked(log, shape, from)?;
    Ok(status)
}

/// Takes its state back beside the runs. The jobs that it schedules for itself go to a list of bodies that wait. Gives a status, and what
/// the call is made for.
pub fn restore_safe<C: Codes>(
    back: &mut BackOf<C>,
    from: &Props,
    jobs: &mut ArrayVec<Parcel, 64>,
    caller: Caller,
    log: &mut JudgedLog,
    shape: &Shape,
) -> Result<(u8, Message), Halt>
    requires some_cells { 1 ≤ caller.cells }
    requires cells { caller.cells ≤ 64 }
    requires list { length jobs.old.items ≤ caller.cells }
    requires session { IsSession shape.now }
    requires followed { IsFollowed shape.now (entries_of log.old.log.items) log.old.follower }
    requires spare { 18 ≤ log.old.log.spare }
    ensures followed { IfOk result (λ it. IsFollowed shape.now (entries_of log.new.log.items) log.new.follower) }
    ensures restored { IfOk result (λ it. (told : List Attempt) × (jobs.new.items ≡ jobs.old.items ++ sent_among told)
        × GoesOnBy C.Front C.Back (RestoreSafeCall C.Back.meaning caller back.old.inst back.old.part (meaning_of it.1) from.now) shape.now (entries_of log.old.log.items) (entries_of log.new.log.items)
        (trying_call caller calls.RestoreSafe back.old.inst (meaning_of it.1) told (worked back.new.part it.0))) }
    ensures back { back.new ≡ record back.old { part = back.new.part } }
{
    let at = log.len();
    let status = list_calls::restore_safe(back, from, jobs, caller, &mut log.log);
    let about = judge(log, shape, at)?;
    Ok((status, about))
}
