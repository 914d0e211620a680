use std::collections::LinkedList;

/// What an actor did in one step. Rings have numbers. No code makes one: it is what a proof says of an actor.
pub enum Action<M> {
    /// Something away from the rings.
    Marked,
    /// It sent a message on this ring, after it had seen that so many were taken.
    Sent(u64, u64, M),
    /// It found this ring full, as it saw that so many were taken.
    Refused(u64, u64),
    /// It looked at this ring: so many were sent in all, and these were new to it.
    Looked(u64, u64, LinkedList<M>),
    /// It took a message from this ring.
    Taken(u64, M),
    /// It stored this number as the beat.
    Stored(u64),
    /// It loaded this number from the beat.
    Loaded(u64),
}

/// A finished step, with the ticket that puts it into the order of all steps of all actors.
pub struct Event<M> {
    pub ticket: u64,
    pub action: Action<M>,
}

/// What an actor is in the midst of.
pub enum Pending<M> {
    /// Nothing.
    Idle,
    /// It has drawn the ticket of its next event.
    Drew(u64),
    /// It puts a message into a cell of this ring, with this ticket, after it had seen that so many were taken.
    Putting(u64, u64, u64),
    /// It moves this message out of a cell of this ring.
    Fetching(u64, M),
    /// It has moved this message out of this ring, and has no ticket for it yet.
    Took(u64, M),
}

/// What an actor did, in order, and what it is in the midst of.
pub struct Trace<M> {
    pub events: LinkedList<Event<M>>,
    pub pending: Pending<M>,
}
