use cable_trace::Trace;
use std::collections::LinkedList;

/// A ring goes from one actor to another, or from an actor to itself.
#[derive(Clone, Copy)]
pub struct RingSpec {
    pub from: u32,
    pub to: u32,
}

/// A cable's first ticket, how many cells each ring has, how many actors there are, and the ends of each ring. No code makes one: it is what
/// a proof says of a cable.
pub struct Plan {
    pub first: u64,
    pub cells: u64,
    pub actors: u64,
    pub rings: LinkedList<RingSpec>,
}

/// An actor of a cable, and what it did there.
pub struct Acting<M> {
    pub actor: u64,
    pub plan: Plan,
    pub trace: Trace<M>,
}

/// What a seat of the table knows. No code makes one.
pub enum View<M> {
    /// It has handed out the seats of so many actors, and has gathered these traces of the first of them.
    Desk(Plan, u64, LinkedList<Trace<M>>),
    /// It is this actor's.
    Actor(Acting<M>),
    /// Its trace was gathered.
    Spent,
}
