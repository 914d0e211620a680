ghost use Rattle.std.specs.Prelude.{◌≡◌, ◌<◌, ◌^◌, length, None, IfOk, IfErr};
ghost use Rattle.record_law.specs.Lawful as law;
ghost use Rattle.record_law.specs.Lawful.{IsLawful};
ghost use Rattle.record_law.specs.Message.{History};
ghost use Rattle.record_law.specs.Protocol.{done_in};
ghost use Rattle.record_legal.specs.Judging.{IsJudge, Judged, HasJudged};
ghost use Rattle.record_terms.specs.Session.{IsSession};
ghost use Rattle.record_legal.specs.Legal.{IsIllegal};

use crate::judge::Judge;
use lv_base::NoMemory;
use record_law::{Broken, Shape};
use record_terms::is_kind;
use std::alloc::Global;
use step_record::{Entry, Kind, Record};

/// Why a record isn't lawful, or can't be judged.
#[derive(Drop)]
pub enum Illegal {
    /// This line breaks this rule, and none before it breaks one. The first entry is on line 2; where the end is missing, it is the line after
    /// the last.
    Broken { line: u64, rule: Broken },
    /// Memory was refused.
    NoMemory,
}

impl From<NoMemory> for Illegal {
    ghost use Rattle.std.specs.Prelude.{◌≡◌};
    ghost use Rattle.record_legal.specs.declared.verdict.Illegal.TheVariants as illegal;

    ghost from_gives = { λ _ made. made ≡ illegal.NoMemory };

    fn from(_: NoMemory) -> Self {
        Illegal::NoMemory
    }
}

/// Judges a record by all rules but that on values.
pub fn legal(alloc: Global, shape: &Shape, steps: &Record) -> Result<(), Illegal>
    requires { IsSession shape.now }
    ensures ok { IfOk result (λ _. IsLawful shape.now steps.now) }
    ensures err { IfErr result (IsIllegal shape.now steps.now) }
{
    let mut judge = Judge::new(alloc, shape)?;
    let mut later = steps.entries();
    let mut line = 2u64;
    let mut ended = false;
    while let Some((entry, rest)) = later.split_first() {
        if let Some(rule) = broken_at(&mut judge, shape, *entry, rest) {
            return Err(Illegal::Broken { line, rule });
        }
        ended = is_kind(Kind::Last, *entry);
        later = rest;
        line += 1;
    }
    if ended {
        Ok(())
    } else {
        let rule = Broken::End;
        Err(Illegal::Broken { line, rule })
    }
}

// The first rule that an entry breaks before later ones; an end of the record is a line only as the last.
fn broken_at(judge: &mut Judge, shape: &Shape, entry: Entry, later: &[Entry]) -> Option<Broken>
    requires session { IsSession shape.now }
    requires judge { IsJudge shape.now judge.old }
    requires judged { HasJudged shape.now judge.old }
    ensures broken { (h : History) → length h < 2 ^ 63 → Judged shape.now h judge.old → result ≡ law.broken_at shape.now h entry later.now }
    ensures judge { result ≡ None → IsJudge shape.now judge.new }
    ensures judged { (h : History) → length h < 2 ^ 63 → result ≡ None → Judged shape.now h judge.old → Judged shape.now (done_in shape.now h entry) judge.new }
{
    if is_kind(Kind::Last, entry) && !later.is_empty() {
        Some(Broken::Syntax)
    } else {
        judge.judge(shape, entry)
    }
}
