ghost use Rattle.block_signals.specs.Laws.{BoardGivesInputs, BoardBeginsBlank, BlockBegins, RunEnds, ActionIsTaken, NothingElseCounts};
ghost use Rattle.block_signals.specs.Channels.{BoardGivesBlock};
ghost use Rattle.block_signals.specs.Parts.{OutputsStay, ValuesStay};
ghost use Rattle.block_signals.specs.Lent.{FilledIsReady};
ghost use Rattle.block_signals.specs.Running.{NotRunIsQuiet, RunIsShown};
ghost use Rattle.block_signals.specs.Setting.{NothingIsChanged};

/// What is known at a moment says what each run is given.
pub fn board_gives_inputs<F, B>()
    ensures { BoardGivesInputs F B }
{}

/// Before audio's first moment nothing is known.
pub fn board_begins_blank<F, B>()
    ensures { BoardBeginsBlank F B }
{}

/// Where a block begins, what was given in this block was given in the one before.
pub fn block_begins<F, B>()
    ensures { BlockBegins F B }
{}

/// A run that ends gives its outputs, and nothing else.
pub fn run_ends<F, B>()
    ensures { RunEnds F B }
{}

/// An action that audio takes sets a value, or brings a message.
pub fn action_is_taken<F, B>()
    ensures { ActionIsTaken F B }
{}

/// No other moment of audio changes what is known.
pub fn nothing_else_counts<F, B>()
    ensures { NothingElseCounts F B }
{}

/// Ports over the filled inputs of an instance and over quiet outputs are lent as a run wants them, and give it what is known.
pub fn filled_is_ready()
    ensures { FilledIsReady }
{}

/// The outputs of an instance that didn't run in a block are quiet; once its run wrote there, they show what it gave.
pub fn run_is_shown()
    ensures quiet { NotRunIsQuiet }
    ensures shown { RunIsShown }
{}

/// What is known once the runs of a block have ended says what its PCM is.
pub fn board_gives_block<F, B>()
    ensures { BoardGivesBlock F B }
{}

/// An action that sets no value, and sends no message that its instance has a port for, changes nothing that is held.
pub fn nothing_is_changed()
    ensures { NothingIsChanged }
{}

/// Where what runs gave stays, outputs show it still, and so it is with the values of inputs and the messages.
pub fn parts_stay()
    ensures outputs { OutputsStay }
    ensures values { ValuesStay }
{}
