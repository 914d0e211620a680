//! What the play of a record gives: in `specs/` its sound, the states that it saved, and its summary. No code of a run stands here.
#![tactic(auto)]

ghost use Rattle.play_outcome.specs.Laws.{SoundGoesOn, SoundIsWhole};

/// What was heard stays heard whatever is played later, and each block that ended has two bytes for each channel in each frame.
pub fn sound_goes_on<F, B>()
    ensures more { SoundGoesOn F B }
    ensures whole { SoundIsWhole F B }
{}
