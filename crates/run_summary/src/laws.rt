ghost use Rattle.run_summary.specs.Laws.{TellsPlay, GoesOnWell, GoesOnFailing};

/// The text of the counts and reports of a play is its summary.
pub fn parts_tell_play<F, B>()
    ensures { TellsPlay F B }
{}

/// Counts that were those of a play are those of one moment more once its entry was noted, and its failure where the work of an instance
/// failed.
pub fn failures_are_counted<F, B>()
    ensures well { GoesOnWell F B }
    ensures failing { GoesOnFailing F B }
{}
