ghost use Rattle.std.specs.Prelude.{◌≡◌, pos};
ghost use Rattle.stock_state.specs.Keep.{keep_restore};

use crate::fill::fill;
use crate::level::{UNKNOWN, heard, level_in, save, stored};
use lv_base::Fixed;
use plug_api::{Back, Front, Ports, Respond, Sched};
use state_store::{Props, SUCCESS, Shelf};

const OUT: u32 = 0;

const VALUE: u32 = 1;

/// The sound is its level and a value.
#[derive(Drop)]
pub struct KeepFront {
    level: Fixed,
}

/// Stores the level.
#[derive(Drop)]
pub struct KeepBack {
    /// The number of the level's key.
    key: u32,
    level: Fixed,
}

impl KeepFront {
    /// The level is 0.
    pub fn new() -> Self
        ensures { result ≡ record { level = record { 0 = pos 0 } } }
    {
        KeepFront { level: Fixed(0) }
    }
}

impl KeepBack {
    /// The level is 0, and its key has this number.
    pub fn with_key(key: u32) -> Self
        ensures { result ≡ record { key = key; level = record { 0 = pos 0 } } }
    {
        KeepBack {
            key,
            level: Fixed(0),
        }
    }
}

impl Front for KeepFront {
    ghost use Rattle.stock_state.specs.Keep.{keep_front};

    ghost meaning = { keep_front };

    fn activate(&mut self) {}

    fn deactivate(&mut self) {}

    fn run<S: Sched>(&mut self, ports: &mut Ports<'_>, _sched: &mut S) {
        let value = ports.value(VALUE);
        fill(ports, OUT, heard(self.level, value));
    }

    fn work_response(&mut self, _body: &[u8]) {}

    fn end_run(&mut self) {}
}

impl Back for KeepBack {
    ghost use Rattle.stock_state.specs.Keep.{keep_back};

    ghost meaning = { keep_back };

    fn work<R: Respond>(&mut self, _body: &[u8], _answer: &mut R) -> u8 {
        UNKNOWN
    }

    fn save(&self, shelf: &mut Shelf) -> u8 {
        save(self.level, self.key, shelf)
    }

    fn restore_safe<S: Sched>(&mut self, _from: &Props, _sched: &mut S) -> u8 {
        UNKNOWN
    }
}

/// Gives both parts of keep the stored level. The answer is an `LV2_State_Status`: `NO_PROPERTY` where no level is stored, `BAD_TYPE`
/// where it isn't a Fixed; both change nothing.
pub fn restore_keep(front: &mut KeepFront, back: &mut KeepBack, from: &Props) -> u8
    ensures { (front.new, back.new, result) ≡ keep_restore front.old back.old from.now }
{
    match stored(from, back.key) {
        Ok(body) => {
            front.level = level_in(body);
            back.level = front.level;
            SUCCESS
        }
        Err(status) => status,
    }
}
