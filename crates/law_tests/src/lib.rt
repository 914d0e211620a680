//! Worked records, and altered copies of each with the line and rule of the first violation. They are computed from the definitions when
//! the crate is proved. What is expected was worked out by a program of its own from the table of rules.
#![tactic(auto)]

ghost use Rattle.record_law.specs.Lawful.{IsLawful};
ghost use Rattle.record_law.specs.Case.{Gives};
ghost use Rattle.law_tests.specs.Gain as gain;
ghost use Rattle.law_tests.specs.NoBlocks as no_blocks;
ghost use Rattle.law_tests.specs.Fetch as fetch;
ghost use Rattle.law_tests.specs.Burst as burst;
ghost use Rattle.law_tests.specs.Keep as keep;
ghost use Rattle.law_tests.specs.Tank as tank;
ghost use Rattle.law_tests.specs.Patch as patch;
ghost use Rattle.law_tests.specs.OneCell as one_cell;
ghost use Rattle.law_tests.specs.KeepLate as keep_late;
ghost use Rattle.law_tests.specs.SetLate as set_late;

/// The record of a session: two instances without workers, two blocks.
pub fn gain_record()
    ensures lawful { IsLawful gain.session gain.steps }
    ensures copies { Gives gain.session gain.steps gain.cases }
{}

/// The record of a session: two instances and no block.
pub fn no_blocks_record()
    ensures lawful { IsLawful no_blocks.session no_blocks.steps }
    ensures copies { Gives no_blocks.session no_blocks.steps no_blocks.cases }
{}

/// The record of a session: an instance that schedules a job in each of three blocks.
pub fn fetch_record()
    ensures lawful { IsLawful fetch.session fetch.steps }
    ensures copies { Gives fetch.session fetch.steps fetch.cases }
{}

/// The record of a session: an instance that schedules three jobs in a block, with two cells.
pub fn burst_record()
    ensures lawful { IsLawful burst.session burst.steps }
    ensures copies { Gives burst.session burst.steps burst.cases }
{}

/// The record of a session: a restore with both parts of an instance, at block 2 of 4.
pub fn keep_record()
    ensures lawful { IsLawful keep.session keep.steps }
    ensures copies { Gives keep.session keep.steps keep.cases }
{}

/// The record of a session: a save, a thread-safe restore and a save.
pub fn tank_record()
    ensures lawful { IsLawful tank.session tank.steps }
    ensures copies { Gives tank.session tank.steps tank.cases }
{}

/// The record of a session: patch messages and notices.
pub fn patch_record()
    ensures lawful { IsLawful patch.session patch.steps }
    ensures copies { Gives patch.session patch.steps patch.cases }
{}

/// The record of a session: two values sent through one cell.
pub fn one_cell_record()
    ensures lawful { IsLawful one_cell.session one_cell.steps }
    ensures copies { Gives one_cell.session one_cell.steps one_cell.cases }
{}

/// The record of a session: a restore that comes once all blocks have ended.
pub fn keep_late_record()
    ensures lawful { IsLawful keep_late.session keep_late.steps }
    ensures copies { Gives keep_late.session keep_late.steps keep_late.cases }
{}

/// The record of a session: a value that is never sent.
pub fn set_late_record()
    ensures lawful { IsLawful set_late.session set_late.steps }
    ensures copies { Gives set_late.session set_late.steps set_late.cases }
{}
