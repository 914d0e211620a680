ghost use Rattle.std.specs.Prelude.{◌≡◌};

use crate::seat::{Seat, draw};
use step_record::Tickets;

impl<M: Drop> Tickets for Seat<'_, M> {
    ghost use Rattle.cable_ring.specs.Passes.{PassView};
    ghost use Rattle.cable_ring.specs.Drawers.{pass_left, pass_drawn, away_from_draws};

    ghost Rest = { PassView M };

    ghost left = { λ seat. pass_left seat.pass };

    ghost drawn = { λ seat. pass_drawn seat.pass };

    ghost rest = { λ seat. away_from_draws seat.pass };

    fn draw(&mut self) -> u64 {
        draw(self)
    }
}
