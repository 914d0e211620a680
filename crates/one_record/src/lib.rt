//! How far the turns of one thread determine its record. Two records of a run can part only at two entries of the actor whose turn it is.
#![tactic(auto)]

ghost use Rattle.one_record.specs.Laws.{ArePartedByTurn, LooksAreOne, BeatsAreOne, SendsAreNotRefused, TakesAreFirst, SendsAreFirst, ActsAreOne};

/// Two records of one thread are the same, or they begin alike and go on with two entries of the actor whose turn it is: neither is only the
/// beginning of the other.
pub fn records_part_at_one_turn<F, B>()
    ensures { ArePartedByTurn F B }
{}

/// What one thread sees is one: a look shows one number, control sees one progress, and a ring takes a message or is full, never both.
pub fn next_is_seen<F, B>()
    ensures looks { LooksAreOne F B }
    ensures beats { BeatsAreOne F B }
    ensures sends { SendsAreNotRefused F B }
{}

/// Where control can take what audio sent, that is its next entry; and where it can send to audio, it doesn't see yet that audio has stopped.
pub fn control_takes_first<F, B>()
    ensures takes { TakesAreFirst F B }
    ensures sends { SendsAreFirst F B }
{}

/// While control acts, one entry of its own may come next.
pub fn control_acts_once<F, B>()
    ensures { ActsAreOne F B }
{}
