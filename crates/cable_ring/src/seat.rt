//! The same calls for an actor that sits at its cable.
ghost use Rattle.std.specs.Prelude.{◌≡◌, ℕ, suc, ◌+◌, ◌^◌, ◌<◌, ◌≤◌, List, All, length, IfOk, IfErr, IfSome, IfNone};
ghost use mathlib.Core.Option.{some};
ghost use lib.ListN.{get_elem?};
ghost use Rattle.cable_trace.specs.Trace.{sent, shown, taken};
ghost use Rattle.cable_trace.specs.Beat.{stores};
ghost use Rattle.cable_trace.specs.declared.trace.Action.TheVariants.{Marked, Sent, Refused, Looked, Taken, Stored, Loaded};
ghost use Rattle.cable_ring.specs.Passes.{trace_at, noted, IsNext, HasLeft, sender_at, taker_at};
ghost use Rattle.cable_ring.specs.Tables.{table_of};

use crate::cable::Cable;
use crate::calls::Full;
use crate::pass::Pass;

/// An actor's token at its cable.
#[derive(Drop)]
pub struct Seat<'s, M: Drop> {
    pub cable: &'s Cable<M>,
    pub pass: Pass<M>,
    ghost seated: { pass.table ≡ table_of cable.now },
}

impl<M: Drop> Cable<M> {
    /// The actor sits down at its cable.
    pub fn sit(&self, pass: Pass<M>) -> Seat<'_, M>
        requires { pass.table ≡ table_of self.now }
        ensures { result.pass ≡ pass }
    {
        Seat { cable: self, pass }
    }
}

/// The actor rises, and has its token back.
pub fn rise<M: Drop>(seat: Seat<'_, M>) -> Pass<M>
    ensures { result ≡ seat.entry.pass }
{
    seat.pass
}

/// How many tickets the actor may still draw.
pub fn left<M: Drop>(seat: &Seat<'_, M>) -> u64
    ensures { result + length seat.now.pass.events ≡ 2 ^ 56 }
{
    seat.pass.left()
}

/// Draws a ticket for something away from the rings.
pub fn draw<M: Drop>(seat: &mut Seat<'_, M>) -> u64
    requires { HasLeft 1 seat.old.pass }
    ensures next { IsNext result seat.old.pass }
    ensures noted { seat.new.pass ≡ noted seat.old.pass result Marked }
{
    seat.cable.draw(&mut seat.pass)
}

/// Sends a message on a ring of the actor's; it comes back exactly where those that were sent and not seen taken fill the ring.
pub fn send<M: Drop>(seat: &mut Seat<'_, M>, ring: u32, message: M) -> Result<u64, Full<M>>
    requires left { HasLeft 1 seat.old.pass }
    requires sender { sender_at seat.old.pass.plan.rings ring ≡ suc seat.old.pass.actor }
    ensures sent { IfOk result (λ ticket. IsNext ticket seat.old.pass × ((seen : ℕ) × (seat.new.pass ≡ noted seat.old.pass ticket (Sent ring seen message)))) }
    ensures refused { IfErr result (λ full. IsNext full.ticket seat.old.pass × (full.message ≡ message) × (length (sent ring (trace_at seat.old.pass)) ≡ full.seen + seat.old.pass.plan.cells) × (seat.new.pass ≡ noted seat.old.pass full.ticket (Refused ring full.seen))) }
{
    seat.cable.send(&mut seat.pass, ring, message)
}

/// Looks at a ring that the actor takes from: how many messages were sent and not yet taken, and the ticket.
pub fn look<M: Drop>(seat: &mut Seat<'_, M>, ring: u32) -> (u64, u64)
    requires left { HasLeft 1 seat.old.pass }
    requires taker { taker_at seat.old.pass.plan.rings ring ≡ suc seat.old.pass.actor }
    ensures next { IsNext result.1 seat.old.pass }
    ensures noted { (total : ℕ) × (messages : List M) × (seat.new.pass ≡ noted seat.old.pass result.1 (Looked ring total messages)) }
    ensures shown { result.0 + length (taken ring (trace_at seat.old.pass)) ≡ length (shown ring (trace_at seat.new.pass)) }
    ensures within { result.0 ≤ seat.old.pass.plan.cells }
{
    seat.cable.look(&mut seat.pass, ring)
}

/// Takes the next message that the actor's looks have shown; none exactly where it has taken all of them.
pub fn take<M: Drop>(seat: &mut Seat<'_, M>, ring: u32) -> Option<(M, u64)>
    requires left { HasLeft 1 seat.old.pass }
    requires taker { taker_at seat.old.pass.plan.rings ring ≡ suc seat.old.pass.actor }
    ensures taken { IfSome result (λ took. IsNext took.1 seat.old.pass × (get_elem? (shown ring (trace_at seat.old.pass)) (length (taken ring (trace_at seat.old.pass))) ≡ some took.0) × (seat.new.pass ≡ noted seat.old.pass took.1 (Taken ring took.0))) }
    ensures none { IfNone result ((length (shown ring (trace_at seat.old.pass)) ≡ length (taken ring (trace_at seat.old.pass))) × (seat.new.pass ≡ seat.old.pass)) }
{
    seat.cable.take(&mut seat.pass, ring)
}

/// Stores the beat, a number above all that were stored before.
pub fn beat<M: Drop>(seat: &mut Seat<'_, M>, number: u64) -> u64
    requires left { HasLeft 1 seat.old.pass }
    requires writer { seat.old.pass.actor ≡ 0 }
    requires higher { (0 < number) × All (λ store. store.1 < number) (stores (trace_at seat.old.pass)) }
    ensures next { IsNext result seat.old.pass }
    ensures noted { seat.new.pass ≡ noted seat.old.pass result (Stored number) }
{
    seat.cable.beat(&mut seat.pass, number)
}

/// Loads the beat: the number, and the ticket.
pub fn look_beat<M: Drop>(seat: &mut Seat<'_, M>) -> (u64, u64)
    requires left { HasLeft 1 seat.old.pass }
    requires reader { seat.old.pass.actor ≡ 1 }
    ensures next { IsNext result.1 seat.old.pass }
    ensures noted { seat.new.pass ≡ noted seat.old.pass result.1 (Loaded result.0) }
{
    seat.cable.look_beat(&mut seat.pass)
}
