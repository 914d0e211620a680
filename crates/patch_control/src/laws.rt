ghost use Rattle.patch_control.specs.Laws.{AnyOrder, WrittenIsRead};

/// Two properties that change places leave the message, or the fault, the same.
pub fn any_order()
    ensures { AnyOrder }
{}

/// The objects that are written are read as the messages.
pub fn written_is_read()
    ensures { WrittenIsRead }
{}
