ghost use Rattle.cable_trace.specs.Laws.{RingBegins, AboveAll, SenderGoesOn, SenderDraws, SenderIsRefused, SenderSends, TakerGoesOn, TakerDraws, TakerLooks, TakerMoves, TakerTakes};
ghost use Rattle.cable_trace.specs.Laws.{LeavesInOrder, EventSendsNothing, EventTakesNothing, PendingSendsNothing, PendingTakesNothing, EventUsesTicket, EventDrawsTicket, PendingDrawsTicket};
ghost use Rattle.cable_trace.specs.Laws.{LogBegins, LogStays, LogUsesTicket, LogDrawsTicket, LogsMerge, MergedKeepsRing};

/// All holds of a ring whose actors have done nothing.
pub fn ring_begins<M>()
    ensures { RingBegins M }
{}

/// A ticket above all of an actor's is above those that it has on a ring.
pub fn above_all<M>()
    ensures { AboveAll M }
{}

/// What a sender does away from a ring keeps what holds of the ring, whether it draws a ticket or not.
pub fn sender_goes_on<M>()
    ensures same { SenderGoesOn M }
    ensures draws { SenderDraws M }
{}

/// A refusal keeps what holds of the ring.
pub fn sender_is_refused<M>()
    ensures { SenderIsRefused M }
{}

/// A send keeps what holds of the ring.
pub fn sender_sends<M>()
    ensures { SenderSends M }
{}

/// What a taker does away from a ring keeps what holds of the ring, whether it draws a ticket or not.
pub fn taker_goes_on<M>()
    ensures same { TakerGoesOn M }
    ensures draws { TakerDraws M }
{}

/// A look keeps what holds of the ring.
pub fn taker_looks<M>()
    ensures { TakerLooks M }
{}

/// A take keeps what holds of the ring: first the message leaves it, and then the take gets its ticket.
pub fn taker_takes<M>()
    ensures moves { TakerMoves M }
    ensures ticket { TakerTakes M }
{}

/// Messages leave a ring in the order in which they were sent, and none is left out.
pub fn leaves_in_order<M>()
    ensures { LeavesInOrder M }
{}

/// What an actor does on one side of a ring leaves the other side and all other rings as they were.
pub fn leaves_others<M>()
    ensures event_sends { EventSendsNothing M }
    ensures event_takes { EventTakesNothing M }
    ensures pending_sends { PendingSendsNothing M }
    ensures pending_takes { PendingTakesNothing M }
{}

/// Which tickets an actor has drawn after a step.
pub fn draws_in_order<M>()
    ensures uses { EventUsesTicket M }
    ensures draws { EventDrawsTicket M }
    ensures first { PendingDrawsTicket M }
{}

/// The list of all entries by ticket keeps the rules of a ring and of the looks at it, where each log agrees with its actor's trace.
pub fn merged_keeps_ring<M>()
    ensures logs { LogsMerge M }
    ensures rules { MergedKeepsRing M }
{}

/// A log agrees with its actor's trace, where each entry tells of the event that it is put for.
pub fn log_agrees<M>()
    ensures begins { LogBegins M }
    ensures stays { LogStays M }
    ensures uses { LogUsesTicket M }
    ensures draws { LogDrawsTicket M }
{}
