ghost use Rattle.std.specs.Prelude.{◌≡◌, ◌≤◌, List, length};
ghost use Rattle.interaction.specs.Attempts.{Attempt, Plays};
ghost use Rattle.step_law.specs.declared.call.Call.TheVariants as calls;
ghost use Rattle.plug_api.specs.Inputs.{Outputs};
ghost use Rattle.plug_api.specs.Ports.{ports_of, places_of, outs_of, inputs_of, IsLent, IsSameLoan};
ghost use Rattle.plug_api.specs.Running.{with_outputs, AreOutputs};
ghost use Rattle.list_calls.specs.Leaving.{Leaves};

use crate::caller::Caller;
use arrayvec::ArrayVec;
use instance_class::{BackOf, FrontOf};
use plug_api::{Codes, Ports};
use state_store::Props;
use step_record::{Count, Log, Parcel};
use worker_ring::{ListRespond, ListSched};

/// Plays one block. Its jobs go to a list of bodies that wait.
pub fn run<C: Codes>(
    front: &mut FrontOf<C>,
    ports: &mut Ports<'_>,
    jobs: &mut ArrayVec<Parcel, 64>,
    caller: Caller,
    log: &mut Log,
)
    requires ports { ports_of ports.old ≡ front.old.ports }
    requires lent { IsLent ports.old }
    requires some_cells { 1 ≤ caller.cells }
    requires cells { caller.cells ≤ 64 }
    requires list { length jobs.old.items ≤ caller.cells }
    requires spare { 18 ≤ log.old.spare }
    ensures ran { (attempts : List Attempt) × (outputs : Outputs)
        × Plays (C.Front.meaning.run front.old.part (inputs_of ports.old)) attempts (front.new.part, outputs)
        × AreOutputs (ports_of ports.old) (inputs_of ports.old).frames outputs
        × (outs_of ports.new ≡ with_outputs (places_of ports.old) (outs_of ports.old) outputs)
        × Leaves caller calls.Run front.old.inst attempts jobs.old.items log.old jobs.new.items log.new }
    ensures front { front.new ≡ record front.old { part = front.new.part } }
    ensures same_loan { IsSameLoan ports.old ports.new }
{
    let mut tickets = Count::from_number(0);
    let mut sched = ListSched::new(
        jobs,
        caller.cells,
        caller.actor,
        &mut tickets,
        log,
        caller.ring,
        caller.works,
    );
    front.run(ports, &mut sched);
}

/// Does a job. Its responses go to a list of bodies that wait. The answer is a status.
pub fn work<C: Codes>(
    back: &mut BackOf<C>,
    body: &[u8],
    responses: &mut ArrayVec<Parcel, 64>,
    caller: Caller,
    log: &mut Log,
) -> u8
    requires some_cells { 1 ≤ caller.cells }
    requires cells { caller.cells ≤ 64 }
    requires list { length responses.old.items ≤ caller.cells }
    requires spare { 18 ≤ log.old.spare }
    ensures worked { (attempts : List Attempt) × Plays (C.Back.meaning.work back.old.part body.now) attempts (back.new.part, result)
        × Leaves caller calls.Work back.old.inst attempts responses.old.items log.old responses.new.items log.new }
    ensures back { back.new ≡ record back.old { part = back.new.part } }
{
    let mut tickets = Count::from_number(0);
    let mut answer = ListRespond::new(
        responses,
        caller.cells,
        caller.actor,
        &mut tickets,
        log,
        caller.ring,
        caller.works,
    );
    back.work(body, &mut answer)
}

/// Takes its state back beside the runs. The jobs that it schedules for itself go to a list of bodies that wait. The answer is a status.
pub fn restore_safe<C: Codes>(
    back: &mut BackOf<C>,
    from: &Props,
    jobs: &mut ArrayVec<Parcel, 64>,
    caller: Caller,
    log: &mut Log,
) -> u8
    requires some_cells { 1 ≤ caller.cells }
    requires cells { caller.cells ≤ 64 }
    requires list { length jobs.old.items ≤ caller.cells }
    requires spare { 18 ≤ log.old.spare }
    ensures restored { (attempts : List Attempt) × Plays (C.Back.meaning.restore_safe back.old.part from.now) attempts (back.new.part, result)
        × Leaves caller calls.RestoreSafe back.old.inst attempts jobs.old.items log.old jobs.new.items log.new }
    ensures back { back.new ≡ record back.old { part = back.new.part } }
{
    let mut tickets = Count::from_number(0);
    let mut sched = ListSched::new(
        jobs,
        caller.cells,
        caller.actor,
        &mut tickets,
        log,
        caller.ring,
        caller.works,
    );
    back.restore_safe(from, &mut sched)
}
