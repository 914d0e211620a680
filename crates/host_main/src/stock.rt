use audio_api::{Codes, Front, Ports};
use lv_base::{NoMemory, Text};
use std::alloc::Global;

mod amplifier;
mod constant;

use amplifier::run_amplifier;
use constant::run_constant;

/// The stock codes: a constant and an amplifier.
#[derive(Clone, Copy, Debug)]
pub struct Stock;

/// A front of a stock code. Neither has a state.
#[derive(Clone, Copy, Debug)]
pub enum StockFront {
    /// `urn:lv2fx:const`: a control value as sound.
    Constant,
    /// `urn:lv2fx:amp`: the input times a gain.
    Amplifier,
}

impl Codes for Stock {
    ghost use Rattle.host_main.specs.Stock.{made_front, uri_of-made_front};

    type Front = StockFront;

    ghost make_of = { made_front };

    ghost made_of = { uri_of-made_front };

    fn make(&self, _alloc: Global, uri: &Text) -> Result<StockFront, NoMemory> {
        if uri.as_str() == "urn:lv2fx:const" {
            Ok(StockFront::Constant)
        } else {
            Ok(StockFront::Amplifier)
        }
    }
}

impl Front for StockFront {
    ghost use Rattle.std.specs.Prelude.{refl};
    ghost use Rattle.host_main.specs.Stock.{uri_of, sound_of};

    ghost uri_of = { uri_of };

    ghost activate_of = { λ front. front };

    ghost deactivate_of = { λ front. front };

    ghost run_of = { λ front given. (front, sound_of front given) };

    fn activate(&mut self) {}

    fn deactivate(&mut self) {}

    fn run(&mut self, ports: &mut Ports<'_>) {
        match self {
            StockFront::Constant => run_constant(ports),
            StockFront::Amplifier => run_amplifier(ports),
        }
    }

    ghost activate_keeps = { λ front. refl };

    ghost deactivate_keeps = { λ front. refl };

    ghost run_keeps = { λ front given. refl };
}
