ghost use Rattle.std.specs.Prelude.{◌≡◌, ◌↔◌, [], ◌∷◌, ◌++◌, length, IfOk, IfErr, OnOk, OnErr, IsErr, MatchOption};
ghost use Rattle.safe_restore.specs.Jobs.{with_job};

use lv_base::NoMemory;
use std::alloc::Global;
use std::collections::VecDeque;
use std::marker::Model;
use step_record::Parcel;

/// The jobs that one thread-safe restore schedules: a worker takes them itself, the oldest first. Contracts see them in the order in
/// which they came, and how many there may be.
#[derive(Drop)]
pub struct LocalJobs {
    cells: usize,
    jobs: VecDeque<Parcel>,
}

impl Model for LocalJobs {
    ghost use Rattle.std.specs.Prelude.{◌≤◌};
    ghost use Rattle.std.specs.VecDeque.{deque_len, deque_capacity};
    ghost use Rattle.safe_restore.specs.Jobs.{Jobs};

    ghost Value = { Jobs };

    ghost view = { λ local. record { cells = local.cells; jobs = local.jobs.items } };

    ghost invariant = { λ local. (deque_len local.jobs ≤ local.cells) × (local.cells ≤ deque_capacity local.jobs) };
}

impl LocalJobs {
    /// No jobs yet, and room for so many.
    pub fn with_room(alloc: Global, cells: u32) -> Result<Self, NoMemory>
        ensures { IfOk result (λ local. local ≡ record { cells = cells; jobs = [] }) }
    {
        let cells = cells as usize;
        let jobs = VecDeque::with_capacity(alloc, cells)?;
        Ok(LocalJobs { cells, jobs })
    }

    /// Adds a job after all others. It is handed back exactly where there are as many as there is room for, and then all is as before.
    /// It takes no memory.
    pub fn add(&mut self, job: Parcel) -> Result<(), Parcel>
        ensures full { IsErr result ↔ (length self.old.jobs ≡ self.old.cells) }
        ensures ok { OnOk result (self.new ≡ with_job self.old job) }
        ensures returned { IfErr result (λ refused. refused ≡ job) }
        ensures err { OnErr result (self.new ≡ self.old) }
    {
        if self.jobs.len() == self.cells {
            return Err(job);
        }
        self.jobs.push_back_reserved(job);
        Ok(())
    }

    /// Takes the oldest job out, `None` exactly where there is none.
    pub fn next(&mut self) -> Option<Parcel>
        ensures cells { self.new.cells ≡ self.old.cells }
        ensures job { MatchOption result ((self.old.jobs ≡ []) × (self.new.jobs ≡ [])) (λ job. self.old.jobs ≡ job ∷ self.new.jobs) }
    {
        self.jobs.pop_front()
    }
}
