//! What each step on the table tells. These types are for the proofs alone.
ghost use Rattle.cable_ring.specs.declared.view.View.TheVariants.{Spent};
ghost use Rattle.cable_ring.specs.Steps.{drew, marked, took, saw_head, stored_tail, saw_tail, saw_cell, stored_head, stored_beat, saw_beat, handed_out, next_actor, gathered_with};

use crate::view::View;
use atomic_table::{Join, Play, Split};

pub(crate) struct Draw;

impl<M> Play<Option<M>, View<M>> for Draw {
    ghost then = { drew };
}

pub(crate) struct Mark;

impl<M> Play<Option<M>, View<M>> for Mark {
    ghost then = { marked };
}

pub(crate) struct DrawForTake;

impl<M> Play<Option<M>, View<M>> for DrawForTake {
    ghost then = { took };
}

pub(crate) struct SeeHead;

impl<M> Play<Option<M>, View<M>> for SeeHead {
    ghost then = { saw_head };
}

pub(crate) struct StoreTail;

impl<M> Play<Option<M>, View<M>> for StoreTail {
    ghost then = { stored_tail };
}

pub(crate) struct SeeTail;

impl<M> Play<Option<M>, View<M>> for SeeTail {
    ghost then = { saw_tail };
}

pub(crate) struct SeeCell;

impl<M> Play<Option<M>, View<M>> for SeeCell {
    ghost then = { saw_cell };
}

pub(crate) struct StoreHead;

impl<M> Play<Option<M>, View<M>> for StoreHead {
    ghost then = { stored_head };
}

pub(crate) struct StoreBeat;

impl<M> Play<Option<M>, View<M>> for StoreBeat {
    ghost then = { stored_beat };
}

pub(crate) struct SeeBeat;

impl<M> Play<Option<M>, View<M>> for SeeBeat {
    ghost then = { saw_beat };
}

pub(crate) struct HandOut;

impl<M> Split<View<M>> for HandOut {
    ghost left = { handed_out };

    ghost right = { next_actor };
}

pub(crate) struct Gather;

impl<M> Join<View<M>> for Gather {
    ghost both = { gathered_with };

    ghost spent = { Spent };
}
