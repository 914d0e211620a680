ghost use Rattle.std.specs.Prelude.{◌≤◌};

use arrayvec::ArrayVec;
use step_record::{Log, Parcel, Tickets};

/// Answers the attempts of one call from a list of bodies that wait, as a ring of `cells` cells would: a body that is accepted is put at
/// the list's end, and the list is full where `cells` wait. Each attempt is marked, up to the 16th.
#[derive(Drop)]
pub struct ListAttempts<'a, T: Tickets> {
    pub(crate) list: &'a mut ArrayVec<Parcel, 64>,
    pub(crate) tickets: &'a mut T,
    pub(crate) log: &'a mut Log,
    pub(crate) cells: u32,
    pub(crate) actor: u32,
    pub(crate) ring: u32,
    pub(crate) room: u8,
    ghost cells_fit: { cells ≤ 64 },
    ghost tickets_last: { room ≤ T.left tickets.now },
    ghost log_lasts: { room ≤ log.now.spare },
}

/// What a front schedules jobs with, where one thread does all the work.
pub type ListSched<'a, T> = ListAttempts<'a, T>;

/// What a back responds with.
pub type ListRespond<'a, T> = ListAttempts<'a, T>;
