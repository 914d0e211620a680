ghost use Rattle.atom_core.specs.Laws.{OneValue, OneSpelling, OneAnswer};

/// No bytes spell two values.
pub fn one_value()
    ensures { OneValue }
{}

/// Each value within the limits has a spelling, and no two.
pub fn one_spelling()
    ensures { OneSpelling }
{}

/// No bytes have two answers of `check`.
pub fn one_answer()
    ensures { OneAnswer }
{}
