ghost use Rattle.std.specs.Prelude.{◌≡◌, ◌≤◌, [], IfOk};
ghost use Rattle.record_terms.specs.Message.{meaning_of};
ghost use Rattle.record_terms.specs.Session.{IsSession};
ghost use Rattle.step_law.specs.Actor.{actor_at};
ghost use Rattle.step_law.specs.declared.call.Call.TheVariants as calls;
ghost use Rattle.judged_log.specs.Followed.{IsFollowed, entries_of};
ghost use Rattle.session_play.specs.Value.{saved, restored};
ghost use Rattle.told_calls.specs.GoingOn.{GoesOnBy, SaveCall, RestoreCall, quiet_call};

use crate::judging::judge;
use instance_class::{BackOf, FrontOf};
use judged_log::{Halt, JudgedLog};
use plug_api::Codes;
use record_law::Shape;
use record_terms::Message;
use state_store::{Props, Shelf};

/// Stores the state of an instance on an empty shelf. Gives a status, and what the call is made for.
pub fn save<C: Codes>(
    back: &BackOf<C>,
    shelf: &mut Shelf,
    actor: u32,
    log: &mut JudgedLog,
    shape: &Shape,
) -> Result<(u8, Message), Halt>
    requires empty { shelf.old.rows ≡ [] }
    requires session { IsSession shape.now }
    requires followed { IsFollowed shape.now (entries_of log.old.log.items) log.old.follower }
    requires spare { 2 ≤ log.old.log.spare }
    ensures followed { IfOk result (λ it. IsFollowed shape.now (entries_of log.new.log.items) log.new.follower) }
    ensures status { IfOk result (λ it. it.0 ≡ (C.Back.meaning.save back.now.part shelf.old.mapped).0) }
    ensures shelf { shelf.new ≡ record shelf.old { rows = (C.Back.meaning.save back.now.part shelf.old.mapped).1 } }
    ensures goes_on { IfOk result (λ it. GoesOnBy C.Front C.Back (SaveCall C.Back.meaning (actor_at actor) back.now.inst back.now.part shelf.old.mapped) shape.now
        (entries_of log.old.log.items) (entries_of log.new.log.items) (quiet_call (actor_at actor) calls.Save back.now.inst (meaning_of it.1) (saved it.0 shelf.new.rows))) }
{
    let from = log.len();
    let status = list_calls::save(back, shelf, actor, &mut log.log);
    let about = judge(log, shape, from)?;
    Ok((status, about))
}

/// Gives an instance, of which both parts are here, its state back. Gives a status, and what the call is made for.
pub fn restore<C: Codes>(
    codes: &C,
    front: &mut FrontOf<C>,
    back: &mut BackOf<C>,
    from: &Props,
    actor: u32,
    log: &mut JudgedLog,
    shape: &Shape,
) -> Result<(u8, Message), Halt>
    requires same_inst { front.old.inst ≡ back.old.inst }
    requires session { IsSession shape.now }
    requires followed { IsFollowed shape.now (entries_of log.old.log.items) log.old.follower }
    requires spare { 2 ≤ log.old.log.spare }
    ensures followed { IfOk result (λ it. IsFollowed shape.now (entries_of log.new.log.items) log.new.follower) }
    ensures front { front.new ≡ record front.old { part = front.new.part } }
    ensures back { back.new ≡ record back.old { part = back.new.part } }
    ensures goes_on { IfOk result (λ it. GoesOnBy C.Front C.Back (RestoreCall (C.meaning codes.now) (actor_at actor) front.old.inst front.old.part back.old.part (meaning_of it.1) from.now) shape.now
        (entries_of log.old.log.items) (entries_of log.new.log.items)
        (quiet_call (actor_at actor) calls.Restore front.old.inst (meaning_of it.1) (restored front.new.part back.new.part it.0))) }
{
    let at = log.len();
    let status = list_calls::restore(codes, front, back, from, actor, &mut log.log);
    let about = judge(log, shape, at)?;
    Ok((status, about))
}
