ghost use Rattle.std.specs.Prelude.{◌≡◌};
ghost use Rattle.std.specs.Option.{option_copied};
ghost use Rattle.stock_codes.specs.Stock.{text_of};

use crate::documents::document_of;
use crate::making::{has_ports, parts_of};
use crate::{StockBack, StockFront, StockName};
use lv_base::Text;
use plug_api::{Codes, MakeFault};
use plugin_decl::{Decl, Options};
use state_store::Props;
use std::alloc::Global;
use stock_state::restore_keep;
use stock_tank::restore_tank;
use urid_map::Urids;

/// The number of a refusal: a port of the code isn't declared with its index, direction and kind.
const NO_PORT: u32 = 1;

/// The status of a call of which a code knows nothing.
const UNKNOWN: u8 = 1;

/// The stock codes: `urn:lv2fx:const`, `amp`, `mix`, `echo`, `fetch`, `burst`, `keep` and `tank`.
#[derive(Clone, Copy, Debug)]
pub struct Stock;

impl Codes for Stock {
    ghost use Rattle.stock_codes.specs.Stock.{stock};

    type Front = StockFront;

    type Back = StockBack;

    ghost meaning = { λ codes. stock };

    fn text(&self, uri: &Text) -> Option<&[u8]> {
        text_of(uri)
    }

    fn make(
        &self,
        alloc: Global,
        decl: &Decl,
        _rate: u32,
        _options: &Options,
        urids: &mut Urids,
    ) -> Result<(StockFront, StockBack), MakeFault> {
        match StockName::of(decl.uri.as_str()) {
            None => Err(MakeFault::NoCode),
            Some(name) if has_ports(name, decl.ports.as_slice()) => parts_of(alloc, name, urids),
            Some(_) => Err(MakeFault::Refused(NO_PORT)),
        }
    }

    fn restore(&self, front: &mut StockFront, back: &mut StockBack, from: &Props) -> u8 {
        match front {
            StockFront::Keep(front) => match back {
                StockBack::Keep(back) => restore_keep(front, back, from),
                _ => UNKNOWN,
            },
            StockFront::Tank(front) => match back {
                StockBack::Tank(back) => restore_tank(front, back, from),
                _ => UNKNOWN,
            },
            _ => UNKNOWN,
        }
    }
}

fn text_of(uri: &Text) -> Option<&'static [u8]>
    ensures { option_copied result ≡ text_of uri.now }
{
    match StockName::of(uri.as_str()) {
        Some(name) => Some(document_of(name).as_bytes()),
        None => None,
    }
}
