ghost use Rattle.std.specs.Prelude.{◌≡◌, ◌≤◌, IfOk, OnOk};
ghost use Rattle.record_law.specs.Message.Message.{nothing};
ghost use Rattle.record_terms.specs.Session.{IsSession};
ghost use Rattle.step_law.specs.Actor.{actor_at};
ghost use Rattle.step_law.specs.declared.call.Call.TheVariants as calls;
ghost use Rattle.judged_log.specs.Followed.{IsFollowed, entries_of};
ghost use Rattle.session_play.specs.Value.{changed};
ghost use Rattle.told_calls.specs.GoingOn.{GoesOnBy, FrontCall, ResponseCall, quiet_call};

use crate::judging::judge_unasked;
use instance_class::{BackOf, FrontOf, Made};
use judged_log::{Halt, JudgedLog};
use plug_api::Codes;
use record_law::Shape;

/// Activates an instance.
pub fn activate<C: Codes>(
    made: Made<C>,
    actor: u32,
    log: &mut JudgedLog,
    shape: &Shape,
) -> Result<(FrontOf<C>, BackOf<C>), Halt>
    requires session { IsSession shape.now }
    requires followed { IsFollowed shape.now (entries_of log.old.log.items) log.old.follower }
    requires spare { 2 ≤ log.old.log.spare }
    ensures followed { IfOk result (λ parts. IsFollowed shape.now (entries_of log.new.log.items) log.new.follower) }
    ensures front { IfOk result (λ parts. parts.0 ≡ record { inst = made.inst; ports = made.ports; part = C.Front.meaning.activate made.front }) }
    ensures back { IfOk result (λ parts. parts.1 ≡ record { inst = made.inst; part = made.back }) }
    ensures goes_on { IfOk result (λ parts. GoesOnBy C.Front C.Back (FrontCall C.Front.meaning (actor_at actor) made.inst made.front) shape.now (entries_of log.old.log.items) (entries_of log.new.log.items)
        (quiet_call (actor_at actor) calls.Activate made.inst nothing (changed (C.Front.meaning.activate made.front)))) }
{
    let from = log.len();
    let parts = list_calls::activate(made, actor, &mut log.log);
    judge_unasked(log, shape, from)?;
    Ok(parts)
}

/// Delivers a response of the back: the body that the actor took last.
pub fn respond<C: Codes>(
    front: &mut FrontOf<C>,
    body: &[u8],
    actor: u32,
    log: &mut JudgedLog,
    shape: &Shape,
) -> Result<(), Halt>
    requires session { IsSession shape.now }
    requires followed { IsFollowed shape.now (entries_of log.old.log.items) log.old.follower }
    requires spare { 2 ≤ log.old.log.spare }
    ensures followed { OnOk result (IsFollowed shape.now (entries_of log.new.log.items) log.new.follower) }
    ensures front { front.new ≡ record front.old { part = C.Front.meaning.response front.old.part body.now } }
    ensures goes_on { OnOk result (GoesOnBy C.Front C.Back (ResponseCall C.Front.meaning (actor_at actor) front.old.inst front.old.part body.now) shape.now (entries_of log.old.log.items) (entries_of log.new.log.items)
        (quiet_call (actor_at actor) calls.Response front.old.inst nothing (changed front.new.part))) }
{
    let from = log.len();
    list_calls::respond(front, body, actor, &mut log.log);
    judge_unasked(log, shape, from)
}

/// Ends a run, once the responses of the block were delivered.
pub fn end_run<C: Codes>(
    front: &mut FrontOf<C>,
    actor: u32,
    log: &mut JudgedLog,
    shape: &Shape,
) -> Result<(), Halt>
    requires session { IsSession shape.now }
    requires followed { IsFollowed shape.now (entries_of log.old.log.items) log.old.follower }
    requires spare { 2 ≤ log.old.log.spare }
    ensures followed { OnOk result (IsFollowed shape.now (entries_of log.new.log.items) log.new.follower) }
    ensures front { front.new ≡ record front.old { part = C.Front.meaning.end_run front.old.part } }
    ensures goes_on { OnOk result (GoesOnBy C.Front C.Back (FrontCall C.Front.meaning (actor_at actor) front.old.inst front.old.part) shape.now (entries_of log.old.log.items) (entries_of log.new.log.items)
        (quiet_call (actor_at actor) calls.EndRun front.old.inst nothing (changed front.new.part))) }
{
    let from = log.len();
    list_calls::end_run(front, actor, &mut log.log);
    judge_unasked(log, shape, from)
}

/// Deactivates an instance, of which both parts are here.
pub fn deactivate<C: Codes>(
    front: FrontOf<C>,
    back: BackOf<C>,
    actor: u32,
    log: &mut JudgedLog,
    shape: &Shape,
) -> Result<Made<C>, Halt>
    requires same_inst { front.inst ≡ back.inst }
    requires session { IsSession shape.now }
    requires followed { IsFollowed shape.now (entries_of log.old.log.items) log.old.follower }
    requires spare { 2 ≤ log.old.log.spare }
    ensures followed { IfOk result (λ made. IsFollowed shape.now (entries_of log.new.log.items) log.new.follower) }
    ensures made { IfOk result (λ made. made ≡ record { inst = front.inst; ports = front.ports; front = C.Front.meaning.deactivate front.part; back = back.part }) }
    ensures goes_on { IfOk result (λ made. GoesOnBy C.Front C.Back (FrontCall C.Front.meaning (actor_at actor) front.inst front.part) shape.now (entries_of log.old.log.items) (entries_of log.new.log.items)
        (quiet_call (actor_at actor) calls.Deactivate front.inst nothing (changed (C.Front.meaning.deactivate front.part)))) }
{
    let from = log.len();
    let made = list_calls::deactivate(front, back, actor, &mut log.log);
    judge_unasked(log, shape, from)?;
    Ok(made)
}
