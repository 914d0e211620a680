ghost use Rattle.held_bodies.specs.Laws.{JobsChange, ResponsesChange, LocalJobsChange, RepliesChange, OthersStay};

/// What is kept shows what waits, as it changes on one ring.
pub fn bodies_change()
    ensures jobs { JobsChange }
    ensures responses { ResponsesChange }
    ensures local { LocalJobsChange }
    ensures replies { RepliesChange }
    ensures others { OthersStay }
{}
