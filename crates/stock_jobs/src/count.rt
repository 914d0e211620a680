ghost use Rattle.std.specs.Prelude.{◌≡◌, ◌≤◌};
ghost use Rattle.stock_jobs.specs.Counts.{counted, wholes, steps};

use lv_base::Fixed;
use std::marker::Model;

/// Where a count stands still: the greatest that a control value has in wholes.
pub const MOST_COUNT: u64 = (1 << 39) - 1;

/// A count that stands still at `MOST_COUNT`. Contracts see the number.
#[derive(Drop)]
pub struct Count {
    number: u64,
}

impl Model for Count {
    ghost use Rattle.std.specs.Prelude.{ℕ, ◌≤◌};
    ghost use Rattle.stock_jobs.specs.declared.count.TheConstants.{MOST_COUNT};

    ghost Value = { ℕ };

    ghost view = { λ count. count.number };

    ghost invariant = { λ count. count.number ≤ MOST_COUNT };
}

impl Count {
    /// Nothing was counted yet.
    pub fn zero() -> Self
        ensures { result ≡ 0 }
    {
        Count { number: 0 }
    }

    pub fn number(&self) -> u64
        ensures value { result ≡ self.now }
        ensures most { result ≤ MOST_COUNT }
    {
        self.number
    }

    /// Counts one more.
    pub fn add_one(&mut self)
        ensures { self.new ≡ counted self.old }
    {
        if self.number < MOST_COUNT {
            self.number += 1;
        }
    }

    /// The count as a control value: 1.0 for each.
    pub fn value(&self) -> Fixed
        ensures { result ≡ wholes self.now }
    {
        Fixed(self.number as i64 * (1 << 24))
    }

    /// The count in steps of 2^-8.
    pub fn steps(&self) -> Fixed
        ensures { result ≡ steps self.now }
    {
        Fixed(self.number as i64 * (1 << 16))
    }
}
