//! What a run gives: a silent block, a notice, a state, and how a restore went.
ghost use Rattle.graph_order.specs.Setup.{IsReady};

use super::setups::setup;
use block_signals::{Channels, Outlets};
use graph_order::Setup;
use lv_base::NoMemory;
use run_outcome::Outcome;
use state_store::{Props, Shelf};
use std::alloc::Global;
use std::process::Abort;
use std::test::Fail;
use urid_map::Urids;

/// An amplifier that is heard, and two actions.
const ACTIONS: &str = "lv2fx 1
block 3
blocks 1
inst a urn:amp
out a out
at 0 set a gain 1
at 1 set a gain 2
";

/// A patch:Get of all.
const GET_ALL: [u8; 16] = [8, 0, 0, 0, 9, 0, 0, 0, 0, 0, 0, 0, 15, 0, 0, 0];

/// A state without properties.
fn no_state(alloc: Global) -> Result<Props, NoMemory> {
    Shelf::with_room(alloc, 26)?.finish()
}

/// What a run gave after a silent block, of which control took a notice.
fn after_a_block(alloc: Global, setup: &Setup) -> Result<Outcome, NoMemory>
    requires { IsReady setup.now }
{
    let mut outcome = Outcome::new(alloc, setup)?;
    let outlets = Outlets::new(alloc, setup)?;
    let channels = Channels::new(alloc, setup)?;
    outcome.end_block(&channels, &outlets)?;
    let urids = Urids::new(alloc)?;
    outcome.hear(alloc, setup, &urids, 0, &GET_ALL)?;
    Ok(outcome)
}

fn outcome(alloc: Global) -> Result<Outcome, Fail> {
    let setup = setup(alloc, ACTIONS.as_bytes())?;
    Ok(after_a_block(alloc, &setup)?)
}

#[test]
fn a_run_gives_what_it_gave(rt: HostRuntime) -> Result<(), Fail> {
    let alloc = rt.alloc();
    let mut outcome = outcome(alloc)?;
    outcome.save(1, no_state(alloc)?);
    outcome.restore(0, 2);
    outcome.restore(2, 2);
    assert!(rt; outcome.sound.as_slice() == [0, 0, 0, 0, 0, 0].as_slice());
    assert!(rt; outcome.lines.as_slice() == "notice a other\n".as_bytes());
    assert!(rt; outcome.saved.get(0).is_some_and(|it| it.is_none()));
    assert!(rt; outcome.saved.get(1).is_some_and(|it| it.is_some()));
    assert!(rt; outcome.statuses.as_slice() == [Some(2), None].as_slice());
    Ok(())
}
