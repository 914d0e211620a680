ghost use Rattle.record_rules.specs.Laws.{BlocksEndInTurn, MessagesNameWhatIsThere};

/// Where no rule is broken, audio ends its blocks in turn, and stops after the last.
pub fn blocks_end_in_turn()
    ensures { BlocksEndInTurn }
{}

/// Where no rule is broken, each message is about an instance that is there.
pub fn messages_name_what_is_there()
    ensures { MessagesNameWhatIsThere }
{}
