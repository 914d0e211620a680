//! What is counted of an instance.
ghost use Rattle.std.specs.Prelude.{◌≡◌, ◌+◌, ◌<◌, ◌^◌};
ghost use Rattle.record_law.specs.History as history;
ghost use Rattle.run_summary.specs.Counting as counting;

use step_law::{Call, Entry, Kind, Ring};

/// What a run counts of an instance.
#[derive(Clone, Copy)]
pub struct InstTally {
    /// The runs that ended.
    pub runs: u64,
    /// The jobs that its runs and its thread-safe restores sent.
    pub jobs: u64,
    /// Those that found no room or were too long.
    pub refused: u64,
    /// The jobs that were worked.
    pub worked: u64,
    /// The responses that its works sent.
    pub responses: u64,
    /// Those that found no room or were too long.
    pub dropped: u64,
    /// The responses that it was given.
    pub delivered: u64,
    /// The works that answered another status than 0.
    pub errors: u64,
}

/// One of these counts.
#[derive(Clone, Copy)]
pub(crate) enum Counter {
    Runs,
    Jobs,
    Refused,
    Worked,
    Responses,
    Dropped,
    Delivered,
    Errors,
}

impl InstTally {
    ghost use Rattle.std.specs.Prelude.{◌≡◌, ◌+◌, ◌<◌, ◌^◌};
    ghost use Rattle.run_summary.specs.Counting.{none, one_up, count_in};

    /// Nothing was counted yet.
    pub(crate) fn none() -> InstTally
        ensures { result ≡ none }
    {
        InstTally {
            runs: 0,
            jobs: 0,
            refused: 0,
            worked: 0,
            responses: 0,
            dropped: 0,
            delivered: 0,
            errors: 0,
        }
    }

    /// One more of what a counter counts.
    pub(crate) fn raise(&mut self, counter: Counter)
        ensures { count_in counter self.old + 1 < 2 ^ 64 → self.new ≡ one_up counter self.old }
    {
        match counter {
            Counter::Runs => self.runs = one_more(self.runs),
            Counter::Jobs => self.jobs = one_more(self.jobs),
            Counter::Refused => self.refused = one_more(self.refused),
            Counter::Worked => self.worked = one_more(self.worked),
            Counter::Responses => self.responses = one_more(self.responses),
            Counter::Dropped => self.dropped = one_more(self.dropped),
            Counter::Delivered => self.delivered = one_more(self.delivered),
            Counter::Errors => self.errors = one_more(self.errors),
        }
    }
}

/// A count and one more; it stands still at 2^64 - 1.
fn one_more(count: u64) -> u64
    ensures { count + 1 < 2 ^ 64 → result ≡ count + 1 }
{
    count.saturating_add(1)
}

/// One more, if there is one.
pub(crate) fn one_more_if(more: bool, count: u64) -> u64
    ensures { count + 1 < 2 ^ 64 → result ≡ history.one_more more count }
{
    if more { one_more(count) } else { count }
}

/// What an entry counts for: an instance, and what is counted of it.
pub(crate) fn counted_for(entry: Entry) -> Option<(u32, Counter)>
    ensures { result ≡ counting.counted_for entry }
{
    match entry.kind {
        Kind::Send => sent_on(Ring::from_number(entry.a)),
        Kind::Full | Kind::Long => refused_on(Ring::from_number(entry.a)),
        Kind::End => ended(entry.a, entry.b),
        _ => None,
    }
}

fn sent_on(ring: Ring) -> Option<(u32, Counter)>
    ensures { result ≡ counting.sent_on ring }
{
    match ring {
        Ring::Jobs(inst) | Ring::LocalJobs(inst) => Some((inst, Counter::Jobs)),
        Ring::Responses(inst) => Some((inst, Counter::Responses)),
        _ => None,
    }
}

fn refused_on(ring: Ring) -> Option<(u32, Counter)>
    ensures { result ≡ counting.refused_on ring }
{
    match ring {
        Ring::Jobs(inst) | Ring::LocalJobs(inst) => Some((inst, Counter::Refused)),
        Ring::Responses(inst) => Some((inst, Counter::Dropped)),
        _ => None,
    }
}

fn ended(call: u32, inst: u32) -> Option<(u32, Counter)>
    ensures { result ≡ counting.ended call inst }
{
    match Call::from_number(call) {
        Some(Call::Run) => Some((inst, Counter::Runs)),
        Some(Call::Work) => Some((inst, Counter::Worked)),
        Some(Call::Response) => Some((inst, Counter::Delivered)),
        _ => None,
    }
}
