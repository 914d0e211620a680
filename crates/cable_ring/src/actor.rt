//! The calls of an actor, over its token.
ghost use Rattle.std.specs.Prelude.{◌≡◌, ℕ, suc, ◌+◌, ◌^◌, ◌<◌, ◌≤◌, List, All, length, IfOk, IfErr, IfSome, IfNone};
ghost use mathlib.Core.Option.{some};
ghost use lib.ListN.{get_elem?};
ghost use Rattle.cable_trace.specs.Trace.{sent, shown, taken};
ghost use Rattle.cable_trace.specs.declared.trace.Action.TheVariants.{Marked, Sent, Refused, Looked, Taken, Stored, Loaded};
ghost use Rattle.cable_trace.specs.Beat.{stores};
ghost use Rattle.cable_ring.specs.Passes.{trace_at, noted, IsNext, HasLeft, sender_at, taker_at};
ghost use Rattle.cable_ring.specs.Tables.{table_of};

use crate::cable::Cable;
use crate::calls::{Full, beat_on, draw_on, look_beat_on, look_on, send_on, take_on};
use crate::pass::{Count, Pass};

impl<M: Drop> Cable<M> {
    /// Draws a ticket for something away from the rings.
    pub fn draw(&self, pass: &mut Pass<M>) -> u64
        requires table { pass.old.table ≡ table_of self.now }
        requires left { HasLeft 1 pass.old }
        ensures next { IsNext result pass.old }
        ensures noted { pass.new ≡ noted pass.old result Marked }
    {
        pass.left -= 1;
        draw_on(&self.table.shared, &mut pass.place)
    }

    /// Sends a message on a ring, which its actor alone does, and answers the ticket. It comes back exactly where the messages that the actor
    /// has sent, less those that were seen taken in this call, fill the ring.
    pub fn send(&self, pass: &mut Pass<M>, ring: u32, message: M) -> Result<u64, Full<M>>
        requires table { pass.old.table ≡ table_of self.now }
        requires left { HasLeft 1 pass.old }
        requires sender { sender_at pass.old.plan.rings ring ≡ suc pass.old.actor }
        ensures sent { IfOk result (λ ticket. IsNext ticket pass.old × ((seen : ℕ) × (pass.new ≡ noted pass.old ticket (Sent ring seen message)))) }
        ensures refused { IfErr result (λ full. IsNext full.ticket pass.old × (full.message ≡ message) × (length (sent ring (trace_at pass.old)) ≡ full.seen + pass.old.plan.cells) × (pass.new ≡ noted pass.old full.ticket (Refused ring full.seen))) }
    {
        pass.left -= 1;
        let at = ring as usize;
        let count = pass.counts[at];
        let top = &self.table.shared;
        match send_on(top, &mut pass.place, pass.cells, count.sent, ring, message) {
            Ok(ticket) => {
                pass.counts[at] = Count {
                    sent: count.sent + 1,
                    shown: count.shown,
                    taken: count.taken,
                };
                Ok(ticket)
            }
            Err(full) => Err(full),
        }
    }

    /// Looks at a ring, which the actor alone takes from: how many messages were sent and not yet taken, and the ticket.
    pub fn look(&self, pass: &mut Pass<M>, ring: u32) -> (u64, u64)
        requires table { pass.old.table ≡ table_of self.now }
        requires left { HasLeft 1 pass.old }
        requires taker { taker_at pass.old.plan.rings ring ≡ suc pass.old.actor }
        ensures next { IsNext result.1 pass.old }
        ensures noted { (total : ℕ) × (messages : List M) × (pass.new ≡ noted pass.old result.1 (Looked ring total messages)) }
        ensures shown { result.0 + length (taken ring (trace_at pass.old)) ≡ length (shown ring (trace_at pass.new)) }
        ensures within { result.0 ≤ pass.old.plan.cells }
    {
        pass.left -= 1;
        let at = ring as usize;
        let count = pass.counts[at];
        let (total, ticket) = look_on(&self.table.shared, &mut pass.place, ring);
        pass.counts[at] = Count {
            sent: count.sent,
            shown: total,
            taken: count.taken,
        };
        (total - count.taken, ticket)
    }

    /// Takes the next message that the actor's looks have shown, with its ticket; none exactly where it has taken all of them.
    pub fn take(&self, pass: &mut Pass<M>, ring: u32) -> Option<(M, u64)>
        requires table { pass.old.table ≡ table_of self.now }
        requires left { HasLeft 1 pass.old }
        requires taker { taker_at pass.old.plan.rings ring ≡ suc pass.old.actor }
        ensures taken { IfSome result (λ took. IsNext took.1 pass.old × (get_elem? (shown ring (trace_at pass.old)) (length (taken ring (trace_at pass.old))) ≡ some took.0) × (pass.new ≡ noted pass.old took.1 (Taken ring took.0))) }
        ensures none { IfNone result ((length (shown ring (trace_at pass.old)) ≡ length (taken ring (trace_at pass.old))) × (pass.new ≡ pass.old)) }
    {
        let at = ring as usize;
        let count = pass.counts[at];
        if count.taken == count.shown {
            return None;
        }
        pass.left -= 1;
        let top = &self.table.shared;
        let took = take_on(top, &mut pass.place, pass.cells, count.taken, ring);
        pass.counts[at] = Count {
            sent: count.sent,
            shown: count.shown,
            taken: count.taken + 1,
        };
        Some(took)
    }

    /// Stores the beat, a number above all that the actor stored before, and answers the ticket. Actor 0 alone does so.
    pub fn beat(&self, pass: &mut Pass<M>, number: u64) -> u64
        requires table { pass.old.table ≡ table_of self.now }
        requires left { HasLeft 1 pass.old }
        requires writer { pass.old.actor ≡ 0 }
        requires higher { (0 < number) × All (λ store. store.1 < number) (stores (trace_at pass.old)) }
        ensures next { IsNext result pass.old }
        ensures noted { pass.new ≡ noted pass.old result (Stored number) }
    {
        pass.left -= 1;
        beat_on(&self.table.shared, &mut pass.place, number)
    }

    /// Loads the beat: the number, and the ticket. Actor 1 alone does so.
    pub fn look_beat(&self, pass: &mut Pass<M>) -> (u64, u64)
        requires table { pass.old.table ≡ table_of self.now }
        requires left { HasLeft 1 pass.old }
        requires reader { pass.old.actor ≡ 1 }
        ensures next { IsNext result.1 pass.old }
        ensures noted { pass.new ≡ noted pass.old result.1 (Loaded result.0) }
    {
        pass.left -= 1;
        look_beat_on(&self.table.shared, &mut pass.place)
    }
}

impl<M> Pass<M> {
    /// How many tickets the actor may still draw.
    pub fn left(&self) -> u64
        ensures { result + length self.now.events ≡ 2 ^ 56 }
    {
        let _ = &self.counts;
        self.left
    }
}
