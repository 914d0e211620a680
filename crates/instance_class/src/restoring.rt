ghost use Rattle.std.specs.Prelude.{◌≡◌};
ghost use Rattle.step_law.specs.declared.call.Call.TheVariants.{Restore};
ghost use Rattle.plug_api.specs.Calls.{CanMarkCall, MarksCall};

use crate::marking::{begin, end};
use crate::{BackOf, FrontOf};
use plug_api::Codes;
use state_store::Props;
use step_record::{Call, Marks};

/// Gives an instance, of which both parts are here, its state back. The answer is a status.
pub fn restore<C: Codes, K: Marks>(
    codes: &C,
    front: &mut FrontOf<C>,
    back: &mut BackOf<C>,
    from: &Props,
    marks: &mut K,
) -> u8
    requires same_inst { front.old.inst ≡ back.old.inst }
    requires marks { CanMarkCall K.actor_of K.can_mark K.marked marks.old }
    ensures restored { (front.new.part, back.new.part, result) ≡ (C.meaning codes.now).restore front.old.part back.old.part from.now }
    ensures front { front.new ≡ record front.old { part = front.new.part } }
    ensures back { back.new ≡ record back.old { part = back.new.part } }
    ensures marks { MarksCall K.actor_of K.marked Restore front.old.inst marks.old marks.new }
{
    let inst = front.inst();
    begin(marks, Call::Restore, inst);
    let status = codes.restore(&mut front.part, &mut back.part, from);
    end(marks, Call::Restore, inst);
    status
}
