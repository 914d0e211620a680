ghost use Rattle.atom_sequence.specs.Laws.{OneList, StableOrder};

/// Each list of events has a stable order, and no two.
pub fn stable_order()
    ensures { StableOrder }
{}

/// No bytes are a sequence of two lists of events.
pub fn one_list()
    ensures { OneList }
{}
