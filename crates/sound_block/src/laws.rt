ghost use Rattle.sound_block.specs.Laws.{FinishedIsMixed};

/// Signals that were added to a cleared sum and finished are, in each frame, the mix of their samples: their exact sum, clamped once.
pub fn finished_is_mixed()
    ensures { FinishedIsMixed }
{}
