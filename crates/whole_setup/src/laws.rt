ghost use Rattle.whole_setup.specs.OneWhole.{HasOneWhole, HasOneWholeOfBytes, HasSomeWhole, HasSomeWholeOfBytes};

/// A law, and no step of a program: the files of a known vault and the documents of codes give a session and its states at most one
/// answer. A read that failed and want of memory aren't theirs.
pub fn one_whole()
    ensures file { HasOneWhole }
    ensures bytes { HasOneWholeOfBytes }
{}

/// A law, and no step of a program: they give them an answer.
pub fn some_whole()
    ensures file { HasSomeWhole }
    ensures bytes { HasSomeWholeOfBytes }
{}
