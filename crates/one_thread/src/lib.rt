//! The record of a run on one thread: in `specs/` whose turn it is, what one thread sees, and how many entries audio may make.
#![tactic(auto)]

ghost use Rattle.one_thread.specs.Laws.{TestsSay, TestsAreKept};

/// A record is that of one thread exactly where two tests say so: it is judged lawful, and all its entries come in turn.
pub fn one_thread_by_tests<F, B>()
    ensures enough { TestsSay F B }
    ensures needed { TestsAreKept F B }
{}
