ghost use Rattle.atom_value.specs.Laws.{SpelledIsRead};

/// What bytes spell is what is read off them.
pub fn spelled_is_read()
    ensures { SpelledIsRead }
{}
