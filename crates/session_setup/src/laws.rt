ghost use Rattle.session_setup.specs.Newest.{HasOneNewest, HasSomeNewest};
ghost use Rattle.session_setup.specs.OneSetup.{HasOneSetup, HasOneSetupOfBytes, HasSomeSetup, HasSomeSetupOfBytes};

/// A law, and no step of a program: at most one of a session's bundles counts for a plug-in, and one does or none declares it.
pub fn one_newest()
    ensures at_most { HasOneNewest }
    ensures at_least { HasSomeNewest }
{}

/// A law, and no step of a program: the files of a known vault and the documents of codes give a session at most one answer. A read that
/// failed and want of memory aren't theirs.
pub fn one_setup()
    ensures file { HasOneSetup }
    ensures bytes { HasOneSetupOfBytes }
{}

/// A law, and no step of a program: they give it an answer.
pub fn some_setup()
    ensures file { HasSomeSetup }
    ensures bytes { HasSomeSetupOfBytes }
{}
