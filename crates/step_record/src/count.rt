ghost use Rattle.std.specs.Prelude.{◌≡◌, ◌<◌, ◌^◌, [], ℕ};
ghost use Rattle.step_record.specs.Count.{tickets_of, tickets_left};

use crate::Tickets;
use std::marker::Model;

/// A plain counter: its tickets go on from a number without a gap.
#[derive(Drop)]
pub struct Count {
    first: u64,
    next: u64,
}

impl Model for Count {
    ghost use Rattle.std.specs.Prelude.{◌<◌, ◌≤◌, ◌+◌, ◌^◌};
    ghost use Rattle.step_record.specs.Count.{Counter};

    ghost Value = { Counter };

    ghost view = { λ count. record { first = count.first; next = count.next } };

    ghost invariant = { λ count. (count.first < 2 ^ 62) × (count.first ≤ count.next) × (count.next ≤ count.first + 2 ^ 56) };
}

impl Count {
    /// A counter that draws this number first.
    pub fn from_number(number: u64) -> Self
        requires { number < 2 ^ 62 }
        ensures first { result.first ≡ number }
        ensures drawn { tickets_of result ≡ [] }
        ensures left { tickets_left result ≡ 2 ^ 56 }
    {
        Count {
            first: number,
            next: number,
        }
    }
}

impl Tickets for Count {
    ghost Rest = { ℕ };

    ghost left = { tickets_left };

    ghost drawn = { tickets_of };

    ghost rest = { λ count. count.first };

    fn draw(&mut self) -> u64 {
        let ticket = self.next;
        self.next += 1;
        ticket
    }
}
