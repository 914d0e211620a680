ghost use Rattle.std.specs.Prelude.{◌≡◌, ◌≤◌, List, [], ◌∷◌, take, replicate};
ghost use Rattle.interaction.specs.Attempts.{Attempt};
ghost use Rattle.stock_jobs.specs.Burst.{answered, whole, within, Bursts};

use crate::Count;
use crate::fill::fill;
use crate::status::{NO_SPACE, SUCCESS, UNKNOWN};
use lv_base::{Fixed, to_sample};
use plug_api::{Back, Front, Ports, Respond, Sched};
use state_store::{Props, Shelf};

const JOBS: u32 = 0;

const SIZE: u32 = 1;

const TAKEN: u32 = 2;

const REFUSED: u32 = 3;

const OUT: u32 = 4;

/// The most jobs of a run, more than a block may have.
const MOST_JOBS: u16 = 20;

/// The most bytes of a job, more than a message may have.
const MOST_BYTES: u16 = 300;

/// Each run schedules the jobs that it is told; the sound tells how many responses came.
#[derive(Drop)]
pub struct BurstFront {
    taken: Count,
    refused: Count,
    responses: Count,
}

/// Answers each job by its first byte.
#[derive(Drop)]
pub struct BurstBack;

impl BurstFront {
    /// Nothing was attempted yet, and no response came.
    pub fn new() -> Self
        ensures { result ≡ record { taken = 0; refused = 0; responses = 0 } }
    {
        BurstFront {
            taken: Count::zero(),
            refused: Count::zero(),
            responses: Count::zero(),
        }
    }
}

impl BurstFront {
    // An attempt was answered.
    fn tally(&mut self, answer: u8)
        ensures { self.new ≡ answered self.old answer }
    {
        match answer {
            SUCCESS => self.taken.add_one(),
            NO_SPACE => self.refused.add_one(),
            _ => {}
        }
    }

    // Attempts so many jobs, each of so many bytes that are its number.
    fn attempt<S: Sched>(&mut self, jobs: u16, size: u16, sched: &mut S)
        requires jobs { jobs ≤ 20 }
        requires size { size ≤ 300 }
        ensures { (attempts : List Attempt) × S.went sched.old attempts sched.new × Bursts jobs size self.old attempts self.new }
    {
        for number in 0..jobs {
            let answer = schedule(number as u8, size, sched);
            self.tally(answer);
        }
    }
}

impl Front for BurstFront {
    ghost use Rattle.stock_jobs.specs.Burst.{burst_front};

    ghost meaning = { burst_front };

    fn activate(&mut self) {}

    fn deactivate(&mut self) {}

    fn run<S: Sched>(&mut self, ports: &mut Ports<'_>, sched: &mut S) {
        let jobs = whole_within(ports.value(JOBS), MOST_JOBS);
        let size = whole_within(ports.value(SIZE), MOST_BYTES);
        self.attempt(jobs, size, sched);
        ports.set_value(TAKEN, self.taken.value());
        ports.set_value(REFUSED, self.refused.value());
        fill(ports, OUT, to_sample(self.responses.steps()));
    }

    fn work_response(&mut self, _body: &[u8]) {
        self.responses.add_one();
    }

    fn end_run(&mut self) {}
}

// Attempts a job of so many bytes, each of them its number.
fn schedule<S: Sched>(number: u8, size: u16, sched: &mut S) -> u8
    requires { size ≤ 300 }
    ensures { S.went sched.old (record { body = replicate size number; answer = result } ∷ []) sched.new }
{
    let bytes = [number; MOST_BYTES as usize];
    sched.schedule_work(&bytes[..usize::from(size)])
}

// The whole of a control value, rounded down and brought into 0 to the most.
fn whole_within(value: Fixed, most: u16) -> u16
    ensures value { result ≡ within most (whole value) }
    ensures most { result ≤ most }
{
    (value.0 >> 24).clamp(0, i64::from(most)) as u16
}

impl Back for BurstBack {
    ghost use Rattle.stock_jobs.specs.Burst.{burst_back};

    ghost meaning = { burst_back };

    fn work<R: Respond>(&mut self, body: &[u8], answer: &mut R) -> u8 {
        answer.respond(front_of(body))
    }

    fn save(&self, _shelf: &mut Shelf) -> u8 {
        UNKNOWN
    }

    fn restore_safe<S: Sched>(&mut self, _from: &Props, _sched: &mut S) -> u8 {
        UNKNOWN
    }
}

// The first byte, if there is one.
fn front_of(body: &[u8]) -> &[u8]
    ensures { result.now ≡ take 1 body.now }
{
    &body[..body.len().min(1)]
}
