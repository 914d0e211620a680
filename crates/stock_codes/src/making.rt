ghost use Rattle.std.specs.Prelude.{◌≡◌, ◌++◌, List, ℕ, IsTrue, IfOk};
ghost use Rattle.iri_resolve.specs.Iri.{is_iri_text};
ghost use Rattle.plug_api.specs.Meaning.{IsMade};
ghost use Rattle.stock_codes.specs.declared.name.StockName.TheVariants.{Keep, Tank};
ghost use Rattle.stock_codes.specs.Making.{IsMapped};
ghost use Rattle.stock_codes.specs.Making as making;

use crate::{StockBack, StockFront, StockName};
use lv_base::Text;
use plug_api::{MakeFault, has_atom, has_audio, has_control};
use plugin_decl::Port;
use std::alloc::Global;
use stock_jobs::{BurstBack, BurstFront, FetchBack, FetchFront};
use stock_sound::{Amplifier, Constant, Echo, Idle, Mixer};
use stock_state::{KeepBack, KeepFront};
use stock_tank::{TankBack, TankFront};
use urid_map::{UridFault, Urids};

/// The number of a refusal: there are no more numbers for the URI of a property.
const NO_NUMBER: u32 = 2;

/// Whether a code finds each of its ports among the declared ones.
pub(crate) fn has_ports(name: StockName, ports: &[Port]) -> bool
    ensures { result ≡ making.has_ports name ports.now }
{
    match name {
        StockName::Const => has_control(true, ports, 0) && has_audio(false, ports, 1),
        StockName::Amp => {
            has_control(true, ports, 0) && has_audio(true, ports, 1) && has_audio(false, ports, 2)
        }
        StockName::Mix => {
            has_audio(true, ports, 0) && has_audio(true, ports, 1) && has_audio(false, ports, 2)
        }
        StockName::Echo => {
            has_audio(true, ports, 0) && has_audio(false, ports, 1) && has_control(true, ports, 2)
        }
        StockName::Fetch => has_audio(false, ports, 0) && has_control(false, ports, 1),
        StockName::Burst => has_burst_ports(ports),
        StockName::Keep => has_audio(false, ports, 0) && has_control(true, ports, 1),
        StockName::Tank => {
            has_atom(true, ports, 0) && has_atom(false, ports, 1) && has_audio(false, ports, 2)
        }
    }
}

fn has_burst_ports(ports: &[Port]) -> bool
    ensures { result ≡ making.has_burst_ports ports.now }
{
    let inputs = has_control(true, ports, 0) && has_control(true, ports, 1);
    let outputs = has_control(false, ports, 2) && has_control(false, ports, 3);
    inputs && outputs && has_audio(false, ports, 4)
}

/// The parts of a new instance.
pub(crate) fn parts_of(
    alloc: Global,
    name: StockName,
    urids: &mut Urids,
) -> Result<(StockFront, StockBack), MakeFault>
    ensures made { IsMade (making.parts_of name urids.old) result urids.new }
    ensures fits { IfOk result (λ parts. (key : ℕ) × (parts.0 ≡ making.front_of name key)) }
    ensures urids { (more : List (List ℕ)) × (urids.new ≡ urids.old ++ more) }
{
    match name {
        StockName::Const => Ok((StockFront::Constant(Constant), StockBack::Idle(Idle))),
        StockName::Amp => Ok((StockFront::Amplifier(Amplifier), StockBack::Idle(Idle))),
        StockName::Mix => Ok((StockFront::Mixer(Mixer), StockBack::Idle(Idle))),
        StockName::Echo => Ok((StockFront::Echo(Echo::new()), StockBack::Idle(Idle))),
        StockName::Fetch => Ok((
            StockFront::Fetch(FetchFront::new()),
            StockBack::Fetch(FetchBack),
        )),
        StockName::Burst => Ok((
            StockFront::Burst(BurstFront::new()),
            StockBack::Burst(BurstBack),
        )),
        StockName::Keep => keep(alloc, urids),
        StockName::Tank => tank(alloc, urids),
    }
}

#[tactic(auto, unfolding(turtle_grammar::specs::Characters::is_excluded))]
fn keep(alloc: Global, urids: &mut Urids) -> Result<(StockFront, StockBack), MakeFault>
    ensures made { IsMade (making.parts_of Keep urids.old) result urids.new }
    ensures fits { IfOk result (λ parts. (key : ℕ) × (parts.0 ≡ making.front_of Keep key)) }
    ensures urids { (more : List (List ℕ)) × (urids.new ≡ urids.old ++ more) }
{
    let key = mapped(alloc, "urn:lv2fx:value", urids)?;
    Ok((
        StockFront::Keep(KeepFront::new()),
        StockBack::Keep(KeepBack::with_key(key)),
    ))
}

#[tactic(auto, unfolding(turtle_grammar::specs::Characters::is_excluded))]
fn tank(alloc: Global, urids: &mut Urids) -> Result<(StockFront, StockBack), MakeFault>
    ensures made { IsMade (making.parts_of Tank urids.old) result urids.new }
    ensures fits { IfOk result (λ parts. (key : ℕ) × (parts.0 ≡ making.front_of Tank key)) }
    ensures urids { (more : List (List ℕ)) × (urids.new ≡ urids.old ++ more) }
{
    let key = mapped(alloc, "urn:lv2fx:level", urids)?;
    Ok((
        StockFront::Tank(TankFront::with_key(key)),
        StockBack::Tank(TankBack::with_key(key)),
    ))
}

// The number of a URI.
fn mapped(alloc: Global, uri: &str, urids: &mut Urids) -> Result<u32, MakeFault>
    requires { IsTrue (is_iri_text uri.now) }
    ensures number { IsMapped urids.old uri.now result urids.new }
    ensures more { (more : List (List ℕ)) × (urids.new ≡ urids.old ++ more) }
{
    let uri = Text::from_str(alloc, uri)?;
    match urids.map(&uri) {
        Ok(number) => Ok(number),
        Err(UridFault::Full) => Err(MakeFault::Refused(NO_NUMBER)),
        Err(UridFault::NoMemory) => Err(MakeFault::NoMemory),
    }
}
