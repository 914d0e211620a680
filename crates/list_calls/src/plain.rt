ghost use Rattle.std.specs.Prelude.{◌≡◌, ◌⊎◌, ◌≤◌, ◌++◌, [], List, ℕ, IfOk};
ghost use Rattle.step_law.specs.declared.call.Call.TheVariants as calls;
ghost use Rattle.instance_class.specs.Parts.{parts_of};
ghost use Rattle.plug_api.specs.Meaning.{IsMade};
ghost use Rattle.plug_api.specs.Calls.{CanMarkCall};
ghost use Rattle.step_record.specs.Count.{tickets_left, tickets_of};
ghost use Rattle.step_record.specs.Log.{Writes};
ghost use Rattle.list_calls.specs.Leaving.{LeavesCall};
ghost use Rattle.list_calls.specs.Pens.{pen_can_mark, pen_marked};

use instance_class::{BackOf, FrontOf, Made};
use plug_api::{Codes, MakeFault};
use plugin_decl::{Decl, Options};
use state_store::{Props, Shelf};
use std::alloc::Global;
use step_record::{Count, Log, Pen};
use urid_map::Urids;

/// Makes an instance. Without memory for its ports nothing is called.
pub fn make<C: Codes>(
    codes: &C,
    alloc: Global,
    decl: &Decl,
    inst: u32,
    rate: u32,
    options: &Options,
    urids: &mut Urids,
    actor: u32,
    log: &mut Log,
) -> Result<Made<C>, MakeFault>
    requires spare { 2 ≤ log.old.spare }
    ensures made { IsMade ((C.meaning codes.now).make decl.now rate options.now urids.old) (parts_of result) urids.new }
    ensures inst { IfOk result (λ made. made.inst ≡ inst) }
    ensures ports { IfOk result (λ made. made.ports ≡ decl.now.ports) }
    ensures log { LeavesCall actor calls.Make inst log.old log.new ⊎ ((result ≡ Err MakeFault.NoMemory) × (log.new ≡ log.old) × (urids.new ≡ urids.old)) }
    ensures urids { (more : List (List ℕ)) × (urids.new ≡ urids.old ++ more) }
{
    let mut tickets = Count::from_number(0);
    let mut pen = pen(actor, &mut tickets, log);
    instance_class::make(codes, alloc, decl, inst, rate, options, urids, &mut pen)
}

/// Activates an instance.
pub fn activate<C: Codes>(made: Made<C>, actor: u32, log: &mut Log) -> (FrontOf<C>, BackOf<C>)
    requires spare { 2 ≤ log.old.spare }
    ensures log { LeavesCall actor calls.Activate made.inst log.old log.new }
    ensures front { result.0 ≡ record { inst = made.inst; ports = made.ports; part = C.Front.meaning.activate made.front } }
    ensures back { result.1 ≡ record { inst = made.inst; part = made.back } }
{
    let mut tickets = Count::from_number(0);
    let mut pen = pen(actor, &mut tickets, log);
    made.activate(&mut pen)
}

/// Delivers a response of the back.
pub fn respond<C: Codes>(front: &mut FrontOf<C>, body: &[u8], actor: u32, log: &mut Log)
    requires spare { 2 ≤ log.old.spare }
    ensures log { LeavesCall actor calls.Response front.old.inst log.old log.new }
    ensures front { front.new ≡ record front.old { part = C.Front.meaning.response front.old.part body.now } }
{
    let mut tickets = Count::from_number(0);
    let mut pen = pen(actor, &mut tickets, log);
    front.response(body, &mut pen);
}

/// Ends a run, once the responses of the block were delivered.
pub fn end_run<C: Codes>(front: &mut FrontOf<C>, actor: u32, log: &mut Log)
    requires spare { 2 ≤ log.old.spare }
    ensures log { LeavesCall actor calls.EndRun front.old.inst log.old log.new }
    ensures front { front.new ≡ record front.old { part = C.Front.meaning.end_run front.old.part } }
{
    let mut tickets = Count::from_number(0);
    let mut pen = pen(actor, &mut tickets, log);
    front.end_run(&mut pen);
}

/// Stores the state of an instance on an empty shelf. The answer is a status.
pub fn save<C: Codes>(back: &BackOf<C>, shelf: &mut Shelf, actor: u32, log: &mut Log) -> u8
    requires empty { shelf.old.rows ≡ [] }
    requires spare { 2 ≤ log.old.spare }
    ensures log { LeavesCall actor calls.Save back.now.inst log.old log.new }
    ensures status { result ≡ (C.Back.meaning.save back.now.part shelf.old.mapped).0 }
    ensures shelf { shelf.new ≡ record shelf.old { rows = (C.Back.meaning.save back.now.part shelf.old.mapped).1 } }
{
    let mut tickets = Count::from_number(0);
    let mut pen = pen(actor, &mut tickets, log);
    back.save(shelf, &mut pen)
}

/// Gives an instance, of which both parts are here, its state back. The answer is a status.
pub fn restore<C: Codes>(
    codes: &C,
    front: &mut FrontOf<C>,
    back: &mut BackOf<C>,
    from: &Props,
    actor: u32,
    log: &mut Log,
) -> u8
    requires same_inst { front.old.inst ≡ back.old.inst }
    requires spare { 2 ≤ log.old.spare }
    ensures restored { (front.new.part, back.new.part, result) ≡ (C.meaning codes.now).restore front.old.part back.old.part from.now }
    ensures front { front.new ≡ record front.old { part = front.new.part } }
    ensures back { back.new ≡ record back.old { part = back.new.part } }
    ensures log { LeavesCall actor calls.Restore front.old.inst log.old log.new }
{
    let mut tickets = Count::from_number(0);
    let mut pen = pen(actor, &mut tickets, log);
    instance_class::restore(codes, front, back, from, &mut pen)
}

/// Deactivates an instance, of which both parts are here.
pub fn deactivate<C: Codes>(
    front: FrontOf<C>,
    back: BackOf<C>,
    actor: u32,
    log: &mut Log,
) -> Made<C>
    requires same_inst { front.inst ≡ back.inst }
    requires spare { 2 ≤ log.old.spare }
    ensures log { LeavesCall actor calls.Deactivate front.inst log.old log.new }
    ensures made { result ≡ record { inst = front.inst; ports = front.ports; front = C.Front.meaning.deactivate front.part; back = back.part } }
{
    let mut tickets = Count::from_number(0);
    let mut pen = pen(actor, &mut tickets, log);
    instance_class::deactivate(front, back, &mut pen)
}

/// Ends an instance.
pub fn cleanup<C: Codes>(made: Made<C>, actor: u32, log: &mut Log)
    requires spare { 2 ≤ log.old.spare }
    ensures { LeavesCall actor calls.Cleanup made.inst log.old log.new }
{
    let mut tickets = Count::from_number(0);
    let mut pen = pen(actor, &mut tickets, log);
    made.cleanup(&mut pen);
}

/// A pen that can mark a call without attempts.
fn pen<'a>(actor: u32, tickets: &'a mut Count, log: &'a mut Log) -> Pen<'a, Count>
    requires tickets { 2 ≤ tickets_left tickets.old }
    requires spare { 2 ≤ log.old.spare }
    ensures actor { result.actor ≡ actor }
    ensures tickets { result.tickets ≡ tickets.entry }
    ensures log { result.log ≡ log.entry }
    ensures call { CanMarkCall (λ pen. pen.actor) (pen_can_mark tickets_left) (pen_marked tickets_left tickets_of (λ count. count.first)) result }
{
    Pen::new(actor, tickets, log)
}
