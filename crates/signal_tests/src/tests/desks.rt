//! What a run holds before anything was played.
ghost use Rattle.graph_order.specs.Setup.{IsReady};

use super::setups::setup;
use graph_order::Setup;
use judged_log::JudgedLog;
use run_desk::Desk;
use run_summary::Tally;
use setup_shape::shape_of;
use std::alloc::Global;
use std::process::Abort;
use std::test::Fail;
use urid_map::Urids;

/// Two amplifiers, and one action.
const TWO: &str = "lv2fx 1
block 3
blocks 1
inst a urn:amp
inst b urn:amp
out b out
at 0 set a gain 1
";

fn desk_for(alloc: Global, setup: &Setup) -> Result<Desk, Fail>
    requires { IsReady setup.now }
{
    let shape = shape_of(alloc, setup)?;
    let log = JudgedLog::new(alloc, &shape)?;
    let tally = Tally::new(alloc, setup)?;
    let urids = Urids::new(alloc)?;
    Ok(Desk::new::<u8, u8>(alloc, setup, log, tally, urids)?)
}

fn desk(alloc: Global) -> Result<Desk, Fail> {
    let setup = setup(alloc, TWO.as_bytes())?;
    desk_for(alloc, &setup)
}

#[test]
fn a_run_begins_with_nothing(rt: HostRuntime) -> Result<(), Fail> {
    let desk = desk(rt.alloc())?;
    assert_eq!(&rt; desk.log.len(), 0);
    assert_eq!(&rt; desk.bodies.each.len(), 2);
    assert_eq!(&rt; desk.untold.len(), 0);
    assert_eq!(&rt; desk.outcome.sound.len(), 0);
    assert!(rt; desk.outcome.statuses.as_slice() == [None].as_slice());
    Ok(())
}
