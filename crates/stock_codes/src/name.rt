ghost use Rattle.std.specs.Prelude.{◌≡◌};
ghost use Rattle.stock_codes.specs.Names as names;

/// The stock codes, by what stands after `urn:lv2fx:` in their URIs.
#[derive(Clone, Copy)]
pub enum StockName {
    Const,
    Amp,
    Mix,
    Echo,
    Fetch,
    Burst,
    Keep,
    Tank,
}

impl StockName {
    /// The code with this URI, `None` exactly where there is none.
    pub fn of(uri: &str) -> Option<StockName>
        ensures { result ≡ names.name_of uri.now }
    {
        match uri {
            "urn:lv2fx:const" => Some(StockName::Const),
            "urn:lv2fx:amp" => Some(StockName::Amp),
            "urn:lv2fx:mix" => Some(StockName::Mix),
            "urn:lv2fx:echo" => Some(StockName::Echo),
            _ => working(uri),
        }
    }
}

// The code with this URI, of those that have a worker or a state.
fn working(uri: &str) -> Option<StockName>
    ensures { result ≡ names.working uri.now }
{
    match uri {
        "urn:lv2fx:fetch" => Some(StockName::Fetch),
        "urn:lv2fx:burst" => Some(StockName::Burst),
        "urn:lv2fx:keep" => Some(StockName::Keep),
        "urn:lv2fx:tank" => Some(StockName::Tank),
        _ => None,
    }
}
