ghost use Rattle.turtle_document.specs.Answer.{HasOneOutcome, HasSomeOutcome, KeepsRows};
ghost use Rattle.turtle_document.specs.Numbers.{KeepsFewNumbers, UsesItsNumbers};

/// Bytes are read in one way: no two answers are theirs.
pub fn one_outcome()
    ensures { HasOneOutcome }
{}

/// Any bytes are read in some way: as a document, or with a fault at a place.
pub fn some_outcome()
    ensures { HasSomeOutcome }
{}

/// A document's triples come after the rows that were there, and they are never more than a store has room for.
pub fn keeps_rows()
    ensures { KeepsRows }
{}

/// Each number of a blank node that a document gives stands in a triple that is new.
pub fn uses_its_numbers()
    ensures { UsesItsNumbers }
{}

/// Where the blank numbers of a graph were at most twice its rows, they are so after a document.
pub fn keeps_few_numbers()
    ensures { KeepsFewNumbers }
{}
