ghost use Rattle.std.specs.Prelude.{◌≡◌, ◌≤◌, ◌<◌, length};
ghost use Rattle.atom_forge.specs.Forged.{TakesAtom, PutsAtom};
ghost use Rattle.atom_sequence.specs.Views.{AwaitsEvent};
ghost use Rattle.plug_api.specs.Buffers.{with_forge};
ghost use Rattle.plug_api.specs.Ports.{places_of, outs_of, place_of, IsSameLoan};
ghost use Rattle.stock_tank.specs.Answers.{answer_to};
ghost use Rattle.stock_tank.specs.Playing.{forge_of, with_event};

use crate::ask::Wanted;
use atom_forge::{Forge, NoRoom};
use lv_base::Fixed;
use patch_control::{Value, write_put, write_set};
use plug_api::Ports;

const NOTIFY: u32 = 1;

/// Writes the answer to a Get at its time, if it has room.
pub(crate) fn answer(ports: &mut Ports<'_>, time: i64, key: u32, level: Fixed, wanted: Wanted)
    requires port { 1 < length (places_of ports.old) }
    requires place { place_of ports.old 1 < length (outs_of ports.old).forges }
    requires awaits { AwaitsEvent (forge_of ports.old) }
    ensures outputs { outs_of ports.new ≡ with_forge (outs_of ports.old) (place_of ports.old 1) (with_event (forge_of ports.old) (record { time = time; value = answer_to key level wanted })) }
    ensures same_loan { IsSameLoan ports.old ports.new }
{
    write_answer(ports.forge(NOTIFY), time, key, level, wanted);
}

// Writes an event with the answer, or nothing of it.
fn write_answer(forge: &mut Forge, time: i64, key: u32, level: Fixed, wanted: Wanted)
    requires { AwaitsEvent forge.old }
    ensures { forge.new ≡ with_event forge.old (record { time = time; value = answer_to key level wanted }) }
{
    let mark = forge.mark();
    if let Ok(()) = forge.event(time) {
        if let Err(NoRoom) = write_message(forge, key, level, wanted) {
            forge.back(mark);
        }
    }
}

fn write_message(forge: &mut Forge, key: u32, level: Fixed, wanted: Wanted) -> Result<(), NoRoom>
    requires takes { TakesAtom forge.old }
    requires deep { length forge.old.levels ≤ 14 }
    ensures { PutsAtom forge.old (answer_to key level wanted) result forge.new }
{
    match wanted {
        Wanted::Level => write_set(forge, key, &Value::Fixed(level)),
        Wanted::All => write_put(forge, &[(key, Value::Fixed(level))]),
    }
}
