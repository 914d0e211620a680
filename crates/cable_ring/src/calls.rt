//! The steps of an actor's calls, over its seat of the table.
ghost use Rattle.std.specs.Prelude.{◌≡◌, ℕ, suc, ◌+◌, ◌<◌, ◌≤◌, [], ◌∷◌, length, List, Option, None, IfOk, IfErr, MatchOption, All};
ghost use mathlib.Core.Option.{some};
ghost use lib.ListN.{get_elem?};
ghost use Rattle.atomic_table.specs.Table.{rest};
ghost use Rattle.cable_trace.specs.Trace.{sent, shown, taken};
ghost use Rattle.cable_trace.specs.declared.trace.Action.TheVariants.{Marked, Sent, Refused, Looked, Taken, Stored, Loaded};
ghost use Rattle.cable_trace.specs.Beat.{stores};
ghost use Rattle.cable_ring.specs.Cells.{slot};
ghost use Rattle.cable_ring.specs.Passes.{trace_at, noted, IsNext, HasLeft, sender_at, taker_at, pass_at, IsResting, IsSized};

use crate::layout::Top;
use crate::pass::Place;
use crate::plays::{
    Draw, DrawForTake, Mark, SeeBeat, SeeCell, SeeHead, SeeTail, StoreBeat, StoreHead, StoreTail,
};
use std::mem;

/// A ring was full: the message comes back, with the ticket of the refusal and how many messages were seen taken.
#[derive(Drop)]
pub struct Full<M> {
    pub message: M,
    pub ticket: u64,
    pub seen: u64,
}

// The slot of a ring's cell for the message with this number.
pub(crate) fn slot_of(cells: u64, ring: u32, number: u64) -> usize
    requires { (0 < cells) × (cells ≤ 64) }
    ensures { result ≡ slot cells ring number }
{
    let first = ring as u64 * cells;
    (first + number % cells) as usize
}

// A ticket for something away from the rings.
pub(crate) fn draw_on<M>(top: &Top<M>, place: &mut Place<M>) -> u64
    requires table { place.old.table_id ≡ top.now.table_id }
    requires seat { IsResting place.old × IsSized (pass_at place.old) × HasLeft 1 (pass_at place.old) }
    ensures next { IsNext result (pass_at place.old) }
    ensures noted { pass_at place.new ≡ noted (pass_at place.old) result Marked }
    ensures seat { IsResting place.new }
{
    top.fetch_add::<Mark>(place, 0, 1)
}

// A send by an actor that has sent so many messages on the ring.
pub(crate) fn send_on<M: Drop>(
    top: &Top<M>,
    place: &mut Place<M>,
    cells: u64,
    count: u64,
    ring: u32,
    message: M,
) -> Result<u64, Full<M>>
    requires table { place.old.table_id ≡ top.now.table_id }
    requires seat { IsResting place.old × IsSized (pass_at place.old) × HasLeft 1 (pass_at place.old) }
    requires sender { sender_at (pass_at place.old).plan.rings ring ≡ suc (pass_at place.old).actor }
    requires numbers { (cells ≡ (pass_at place.old).plan.cells) × (count ≡ length (sent ring (trace_at (pass_at place.old)))) }
    ensures seat { IsResting place.new }
    ensures sent { IfOk result (λ ticket. IsNext ticket (pass_at place.old) × ((seen : ℕ) × (pass_at place.new ≡ noted (pass_at place.old) ticket (Sent ring seen message)))) }
    ensures refused { IfErr result (λ full. IsNext full.ticket (pass_at place.old) × (full.message ≡ message) × (length (sent ring (trace_at (pass_at place.old))) ≡ full.seen + cells) × (pass_at place.new ≡ noted (pass_at place.old) full.ticket (Refused ring full.seen))) }
{
    let ticket = top.fetch_add::<Draw>(place, 0, 1);
    let seen = top.load::<SeeHead>(place, 16 * ring as usize + 16);
    let waiting = count - seen;
    if waiting == cells {
        return Err(Full {
            message,
            ticket,
            seen,
        });
    }
    let slot = slot_of(cells, ring, count);
    // The cell was empty, so nothing is dropped: a test would load a line that the taker wrote last.
    mem::drop(top.exchange(place, slot, Some(message)));
    let next = count + 1;
    top.store::<StoreTail>(place, 16 * ring as usize + 24, next);
    Ok(ticket)
}

// A look: how many messages were sent in all, and its ticket.
pub(crate) fn look_on<M>(top: &Top<M>, place: &mut Place<M>, ring: u32) -> (u64, u64)
    requires table { place.old.table_id ≡ top.now.table_id }
    requires seat { IsResting place.old × IsSized (pass_at place.old) × HasLeft 1 (pass_at place.old) }
    requires taker { taker_at (pass_at place.old).plan.rings ring ≡ suc (pass_at place.old).actor }
    ensures seat { IsResting place.new }
    ensures next { IsNext result.1 (pass_at place.old) }
    ensures noted { (messages : List M) × (pass_at place.new ≡ noted (pass_at place.old) result.1 (Looked ring result.0 messages)) }
    ensures shown { result.0 ≡ length (shown ring (trace_at (pass_at place.new))) }
    ensures within { (length (taken ring (trace_at (pass_at place.old))) ≤ result.0) × (result.0 ≤ length (taken ring (trace_at (pass_at place.old))) + (pass_at place.old).plan.cells) }
{
    let ticket = top.fetch_add::<Draw>(place, 0, 1);
    let tail = top.load::<SeeTail>(place, 16 * ring as usize + 24);
    (tail, ticket)
}

// Moves the message out of the cell that the actor has. The cell is emptied where it lies: an exchange would copy an empty one into it.
fn emptied<M>(top: &Top<M>, place: &mut Place<M>, slot: usize) -> Option<M>
    requires { (place.old.table_id ≡ top.now.table_id) × ((held : Option M) × (place.old.me.1 ≡ (slot, held) ∷ rest place.old.me.1)) }
    ensures same { (place.new.table_id ≡ place.old.table_id) × (place.new.id ≡ place.old.id) }
    ensures was { place.old.me.1 ≡ (slot, result) ∷ rest place.old.me.1 }
    ensures now { place.new.me ≡ (place.old.me.0, (slot, None) ∷ rest place.old.me.1) }
{
    place.slot_mut(top, slot).take()
}

// A take of the next message that was shown, by an actor that has taken so many messages from the ring.
pub(crate) fn take_on<M>(
    top: &Top<M>,
    place: &mut Place<M>,
    cells: u64,
    count: u64,
    ring: u32,
) -> (M, u64)
    requires table { place.old.table_id ≡ top.now.table_id }
    requires seat { IsResting place.old × IsSized (pass_at place.old) × HasLeft 1 (pass_at place.old) }
    requires taker { taker_at (pass_at place.old).plan.rings ring ≡ suc (pass_at place.old).actor }
    requires numbers { (cells ≡ (pass_at place.old).plan.cells) × (count ≡ length (taken ring (trace_at (pass_at place.old)))) }
    requires some_shown { count < length (shown ring (trace_at (pass_at place.old))) }
    ensures seat { IsResting place.new }
    ensures next { IsNext result.1 (pass_at place.old) }
    ensures message { get_elem? (shown ring (trace_at (pass_at place.old))) count ≡ some result.0 }
    ensures noted { pass_at place.new ≡ noted (pass_at place.old) result.1 (Taken ring result.0) }
{
    top.load::<SeeCell>(place, 16 * ring as usize + 16);
    let slot = slot_of(cells, ring, count);
    let Some(message) = emptied(top, place, slot) else {
        unreachable!()
    };
    let next = count + 1;
    top.store::<StoreHead>(place, 16 * ring as usize + 16, next);
    let ticket = top.fetch_add::<DrawForTake>(place, 0, 1);
    (message, ticket)
}

// Stores the beat.
pub(crate) fn beat_on<M>(top: &Top<M>, place: &mut Place<M>, number: u64) -> u64
    requires table { place.old.table_id ≡ top.now.table_id }
    requires seat { IsResting place.old × IsSized (pass_at place.old) × HasLeft 1 (pass_at place.old) }
    requires writer { (pass_at place.old).actor ≡ 0 }
    requires higher { (0 < number) × All (λ store. store.1 < number) (stores (trace_at (pass_at place.old))) }
    ensures seat { IsResting place.new }
    ensures next { IsNext result (pass_at place.old) }
    ensures noted { pass_at place.new ≡ noted (pass_at place.old) result (Stored number) }
{
    let ticket = top.fetch_add::<Draw>(place, 0, 1);
    top.store::<StoreBeat>(place, 8, number);
    ticket
}

// Loads the beat: the number, and the ticket.
pub(crate) fn look_beat_on<M>(top: &Top<M>, place: &mut Place<M>) -> (u64, u64)
    requires table { place.old.table_id ≡ top.now.table_id }
    requires seat { IsResting place.old × IsSized (pass_at place.old) × HasLeft 1 (pass_at place.old) }
    requires reader { (pass_at place.old).actor ≡ 1 }
    ensures seat { IsResting place.new }
    ensures next { IsNext result.1 (pass_at place.old) }
    ensures noted { pass_at place.new ≡ noted (pass_at place.old) result.1 (Loaded result.0) }
{
    let ticket = top.fetch_add::<Draw>(place, 0, 1);
    let number = top.load::<SeeBeat>(place, 8);
    (number, ticket)
}
