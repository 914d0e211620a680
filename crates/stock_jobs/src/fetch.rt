ghost use Rattle.std.specs.Prelude.{◌≡◌, pos};
ghost use Rattle.stock_jobs.specs.Fetch.{fetched, level_for};

use crate::Count;
use crate::fill::fill;
use crate::status::{NO_SPACE, UNKNOWN};
use lv_base::{Fixed, Sample, to_sample};
use plug_api::{Back, Front, Ports, Respond, Sched};
use state_store::{Props, Shelf};

const OUT: u32 = 0;

const REFUSED: u32 = 1;

/// Each run schedules a job; the sound is the level that the last response had.
#[derive(Drop)]
pub struct FetchFront {
    /// The number of the next job.
    jobs: Count,
    /// How often the queue was full.
    refused: Count,
    level: Sample,
}

/// Answers each job by a level.
#[derive(Drop)]
pub struct FetchBack;

impl FetchFront {
    /// Silence, until a response comes.
    pub fn new() -> Self
        ensures { result ≡ record { jobs = 0; refused = 0; level = record { 0 = pos 0 } } }
    {
        FetchFront {
            jobs: Count::zero(),
            refused: Count::zero(),
            level: Sample(0),
        }
    }
}

impl FetchFront {
    // The attempt of a run was answered.
    fn count(&mut self, answer: u8)
        ensures { self.new ≡ fetched self.old answer }
    {
        self.jobs.add_one();
        if answer == NO_SPACE {
            self.refused.add_one();
        }
    }
}

impl Front for FetchFront {
    ghost use Rattle.stock_jobs.specs.Fetch.{fetch_front};

    ghost meaning = { fetch_front };

    fn activate(&mut self) {}

    fn deactivate(&mut self) {}

    fn run<S: Sched>(&mut self, ports: &mut Ports<'_>, sched: &mut S) {
        fill(ports, OUT, self.level);
        let answer = sched.schedule_work(&self.jobs.number().to_le_bytes());
        self.count(answer);
        ports.set_value(REFUSED, self.refused.value());
    }

    fn work_response(&mut self, body: &[u8]) {
        if let Ok(level) = <[u8; 8]>::try_from(body) {
            self.level = to_sample(Fixed(i64::from_le_bytes(level)));
        }
    }

    fn end_run(&mut self) {}
}

impl Back for FetchBack {
    ghost use Rattle.stock_jobs.specs.Fetch.{fetch_back};

    ghost meaning = { fetch_back };

    fn work<R: Respond>(&mut self, body: &[u8], answer: &mut R) -> u8 {
        match <[u8; 8]>::try_from(body) {
            Ok(number) => answer.respond(&level_for(u64::from_le_bytes(number)).to_le_bytes()),
            Err(_) => UNKNOWN,
        }
    }

    fn save(&self, _shelf: &mut Shelf) -> u8 {
        UNKNOWN
    }

    fn restore_safe<S: Sched>(&mut self, _from: &Props, _sched: &mut S) -> u8 {
        UNKNOWN
    }
}

// The level that a job asks for.
fn level_for(number: u64) -> u64
    ensures { result ≡ level_for number }
{
    65536 * ((number % (1 << 24) + 1) % (1 << 24))
}
