ghost use Rattle.std.specs.Prelude.{◌≡◌, pos};

use crate::job::{Job, job_of, restoring};
use lv_base::Fixed;
use plug_api::{Back, Respond, Sched};
use state_store::{Props, SUCCESS, Shelf};
use stock_state::{UNKNOWN, level_in, save, stored};

/// Stores the level.
#[derive(Drop)]
pub struct TankBack {
    /// The number of the level's key.
    pub(crate) key: u32,
    pub(crate) level: Fixed,
}

impl TankBack {
    /// The level is 0, and its key has this number.
    pub fn with_key(key: u32) -> Self
        ensures { result ≡ record { key = key; level = record { 0 = pos 0 } } }
    {
        TankBack {
            key,
            level: Fixed(0),
        }
    }
}

impl Back for TankBack {
    ghost use Rattle.stock_tank.specs.Tank.{tank_back};

    ghost meaning = { tank_back };

    fn work<R: Respond>(&mut self, body: &[u8], answer: &mut R) -> u8 {
        match job_of(body) {
            Job::Set(level) => {
                self.level = level_in(level);
                SUCCESS
            }
            Job::Restore(level) => {
                self.level = level_in(level);
                answer.respond(&level)
            }
            Job::Other => UNKNOWN,
        }
    }

    fn save(&self, shelf: &mut Shelf) -> u8 {
        save(self.level, self.key, shelf)
    }

    fn restore_safe<S: Sched>(&mut self, from: &Props, sched: &mut S) -> u8 {
        match stored(from, self.key) {
            Ok(level) => sched.schedule_work(&restoring(level)),
            Err(status) => status,
        }
    }
}
