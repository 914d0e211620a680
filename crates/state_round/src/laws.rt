ghost use Rattle.state_round.specs.RoundTrip.{NamesArePlain, ReadIsWritten, WrittenIsRead};

/// The text of states is a document, and its triples say the same names, URIs and properties, whatever the base IRI.
pub fn written_is_read()
    ensures { WrittenIsRead }
{}

/// However the text of states is read, it is such a document: there is no other answer to it.
pub fn read_is_written()
    ensures { ReadIsWritten }
{}

/// A name of letters, digits and `_` stands between quotes as it is.
pub fn names_are_plain()
    ensures { NamesArePlain }
{}
