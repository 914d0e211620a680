ghost use Rattle.std.specs.Prelude.{◌≡◌, ◌≤◌, length};

use crate::keep::{Attempt, MOST_KEPT};
use arrayvec::ArrayVec;
use step_record::{Log, Tickets};

/// Answers the attempts of one call by recorded answers, the k-th by the k-th, and every attempt after them by 1. Each that has a recorded
/// answer is marked. The first 16 attempts are kept.
#[derive(Drop)]
pub struct AnswerAttempts<'a, T: Tickets> {
    pub(crate) answers: &'a [u8],
    pub(crate) tickets: &'a mut T,
    pub(crate) log: &'a mut Log,
    pub(crate) made: ArrayVec<Attempt, MOST_KEPT>,
    pub(crate) actor: u32,
    pub(crate) ring: u32,
    pub(crate) room: u8,
    pub(crate) surplus: bool,
    ghost tickets_last: { length answers.now ≤ T.left tickets.now },
    ghost log_lasts: { length answers.now ≤ log.now.spare },
}

/// What a front schedules jobs with, where its answers are recorded.
pub type AnswerSched<'a, T> = AnswerAttempts<'a, T>;

/// What a back responds with.
pub type AnswerRespond<'a, T> = AnswerAttempts<'a, T>;
