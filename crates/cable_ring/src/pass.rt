use crate::view::View;
use atomic_table::Seat;
use std::marker::Model;

/// How many messages an actor sent on a ring, how many it was shown there, and how many it took.
#[derive(Clone, Copy)]
pub struct Count {
    pub sent: u64,
    pub shown: u64,
    pub taken: u64,
}

pub(crate) type Place<M> = Seat<Option<M>, View<M>>;

/// The token of one actor of a cable. It borrows nothing, so it may go from thread to thread, and whoever has it takes the actor's steps.
#[derive(Drop)]
pub struct Pass<M> {
    pub(crate) place: Place<M>,
    pub(crate) cells: u64,
    pub(crate) left: u64,
    pub(crate) counts: Vec<Count>,
}

impl<M> Model for Pass<M> {
    ghost use Rattle.cable_ring.specs.Passes.{PassView};

    ghost Value = { PassView M };

    ghost use Rattle.cable_ring.specs.Held.{pass_view, IsPass};

    ghost view = { pass_view };

    ghost invariant = { IsPass };
}
