ghost use Rattle.held_parts.specs.Laws.{CallChangesOne, CallChangesNone};

/// A call changes the parts of its own instance at most.
pub fn calls_change_one<C, F, B>()
    ensures one { CallChangesOne C F B }
    ensures none { CallChangesNone C F B }
{}
