ghost use Rattle.std.specs.Prelude.{◌≡◌, ℕ, ◌≤◌, ◌++◌, List, IfOk, OnOk};
ghost use Rattle.plug_api.specs.Meaning.{made};
ghost use Rattle.record_law.specs.Message.Message.{nothing};
ghost use Rattle.record_terms.specs.Session.{IsSession};
ghost use Rattle.step_law.specs.Actor.{actor_at};
ghost use Rattle.step_law.specs.declared.call.Call.TheVariants as calls;
ghost use Rattle.judged_log.specs.Followed.{IsFollowed, entries_of};
ghost use Rattle.session_play.specs.Value.{began, idle};
ghost use Rattle.told_calls.specs.GoingOn.{GoesOnBy, MakeCall, PlainCall, quiet_call};

use crate::Unmade;
use crate::judging::judge_unasked;
use instance_class::Made;
use judged_log::{Halt, JudgedLog};
use plug_api::Codes;
use plugin_decl::{Decl, Options};
use record_law::Shape;
use std::alloc::Global;
use urid_map::Urids;

/// Makes an instance.
pub fn make<C: Codes>(
    codes: &C,
    alloc: Global,
    decl: &Decl,
    inst: u32,
    rate: u32,
    options: &Options,
    urids: &mut Urids,
    actor: u32,
    log: &mut JudgedLog,
    shape: &Shape,
) -> Result<Made<C>, Unmade>
    requires session { IsSession shape.now }
    requires followed { IsFollowed shape.now (entries_of log.old.log.items) log.old.follower }
    requires spare { 2 ≤ log.old.log.spare }
    ensures followed { IfOk result (λ it. IsFollowed shape.now (entries_of log.new.log.items) log.new.follower) }
    ensures made { IfOk result (λ it. (it.inst ≡ inst) × (it.ports ≡ decl.now.ports)) }
    ensures goes_on { IfOk result (λ it. GoesOnBy C.Front C.Back (MakeCall (C.meaning codes.now) (actor_at actor) inst decl.now rate options.now urids.old) shape.now
        (entries_of log.old.log.items) (entries_of log.new.log.items)
        (quiet_call (actor_at actor) calls.Make inst nothing (began (made it.front it.back urids.new)))) }
    ensures urids { (more : List (List ℕ)) × (urids.new ≡ urids.old ++ more) }
{
    let from = log.len();
    let made = list_calls::make(
        codes,
        alloc,
        decl,
        inst,
        rate,
        options,
        urids,
        actor,
        &mut log.log,
    )?;
    judge_unasked(log, shape, from)?;
    Ok(made)
}

/// Ends an instance.
pub fn cleanup<C: Codes>(
    made: Made<C>,
    actor: u32,
    log: &mut JudgedLog,
    shape: &Shape,
) -> Result<(), Halt>
    requires session { IsSession shape.now }
    requires followed { IsFollowed shape.now (entries_of log.old.log.items) log.old.follower }
    requires spare { 2 ≤ log.old.log.spare }
    ensures followed { OnOk result (IsFollowed shape.now (entries_of log.new.log.items) log.new.follower) }
    ensures goes_on { OnOk result (GoesOnBy C.Front C.Back (PlainCall C.Front C.Back (actor_at actor)) shape.now (entries_of log.old.log.items) (entries_of log.new.log.items)
        (quiet_call (actor_at actor) calls.Cleanup made.inst nothing idle)) }
{
    let from = log.len();
    list_calls::cleanup(made, actor, &mut log.log);
    judge_unasked(log, shape, from)
}
