ghost use Rattle.port_atoms.specs.Laws.{EventsAreSpelled, PropertiesAreSpelled, MessagesAreSpelled};

/// The events that are read off bytes are those that the bytes spell.
pub fn events_are_spelled()
    ensures { EventsAreSpelled }
{}

/// So are the properties of an object.
pub fn properties_are_spelled()
    ensures { PropertiesAreSpelled }
{}

/// An atom is a message by its bytes exactly where its value says one.
pub fn messages_are_spelled()
    ensures { MessagesAreSpelled }
{}
