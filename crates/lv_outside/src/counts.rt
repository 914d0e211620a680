ghost use Rattle.std.specs.Prelude.{◌≡◌};
ghost use Rattle.lv_outside.specs.Count.{Counted};
ghost use Rattle.lv_outside.specs.Counts.{counted};

use crate::Fetch;

/// What a vault counts. Each count stands still at 2^64 - 1.
#[derive(Clone, Copy, Default)]
pub struct Counts {
    /// How often the outside failed.
    pub faults: u64,
    /// How often a read found no file.
    pub absences: u64,
    /// How often a read found a file that was too long.
    pub longs: u64,
}

/// Counts what a read answers.
pub fn count(counts: &mut Counts, answer: Fetch)
    ensures counted { counts.new ≡ counted counts.old answer }
    ensures failed { Counted counts.old.faults counts.new.faults (answer ≡ Fetch.Failed) }
    ensures absent { Counted counts.old.absences counts.new.absences (answer ≡ Fetch.Absent) }
    ensures long { Counted counts.old.longs counts.new.longs (answer ≡ Fetch.TooLong) }
{
    match answer {
        Fetch::Absent => counts.absences = counts.absences.saturating_add(1),
        Fetch::TooLong => counts.longs = counts.longs.saturating_add(1),
        Fetch::Failed => counts.faults = counts.faults.saturating_add(1),
        Fetch::Got | Fetch::NoMemory => {}
    }
}
