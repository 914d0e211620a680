ghost use Rattle.std.specs.Prelude.{◌≡◌};
ghost use Rattle.stock_tank.specs.Tank.{tank_restore};

use crate::{TankBack, TankFront};
use state_store::{Props, SUCCESS};
use stock_state::{level_in, stored};

/// Gives both parts of tank the stored level. The answer is an `LV2_State_Status`: `NO_PROPERTY` where no level is stored, `BAD_TYPE`
/// where it isn't a Fixed; both change nothing.
pub fn restore_tank(front: &mut TankFront, back: &mut TankBack, from: &Props) -> u8
    ensures { (front.new, back.new, result) ≡ tank_restore front.old back.old from.now }
{
    match stored(from, back.key) {
        Ok(body) => {
            front.level = level_in(body);
            back.level = front.level;
            SUCCESS
        }
        Err(status) => status,
    }
}
