ghost use Rattle.std.specs.Prelude.{◌≡◌};
ghost use Rattle.audio_api.specs.Stock.{IsStockUri};
ghost use Rattle.audio_api.specs.StockPorts.{stock_ports};

use lv_base::{Fixed, Text};

/// The ports of a stock code, by number from 0. It has one control input, at most one audio input and one audio output.
#[derive(Clone, Copy, Debug, PartialEq, Eq)]
pub struct StockPorts {
    /// How many ports there are.
    pub count: u32,
    /// The control input.
    pub control: u32,
    /// The value of the control input where nobody sets it.
    pub first: Fixed,
    /// The audio input.
    pub audio_in: Option<u32>,
    /// The audio output.
    pub audio_out: u32,
}

impl StockPorts {
    /// The ports of the stock code with this URI.
    pub fn of(uri: &Text) -> StockPorts
        requires { IsStockUri uri.now }
        ensures { result ≡ stock_ports uri.now }
    {
        if uri.as_str() == "urn:lv2fx:const" {
            StockPorts {
                count: 2,
                control: 0,
                first: Fixed(0),
                audio_in: None,
                audio_out: 1,
            }
        } else {
            StockPorts {
                count: 3,
                control: 0,
                first: Fixed(1 << 24),
                audio_in: Some(1),
                audio_out: 2,
            }
        }
    }
}
