//! A session before anything was played: its values, and silence.
ghost use Rattle.graph_order.specs.Setup.{IsReady};

use super::setups::setup;
use block_signals::{Channels, Inlets, Outlets};
use graph_order::Setup;
use std::alloc::Global;
use std::process::Abort;
use std::test::Fail;

/// Two amplifiers in a circle, of which the second is heard.
const CIRCLE: &str = "lv2fx 1
block 3
inst a urn:amp
inst b urn:amp
set b gain 0.5
cable a out b in
cable b out a in delayed
out b out
";

/// The PCM of a block in which nothing ran.
fn quiet_block(alloc: Global, setup: &Setup) -> Result<Vec<u8>, Fail>
    requires { IsReady setup.now }
{
    let mut outlets = Outlets::new(alloc, setup)?;
    outlets.begin_block();
    let channels = Channels::new(alloc, setup)?;
    let mut pcm = vec![in alloc; 255; 6]?;
    if setup.session.outs.len() == 1 && setup.session.block == 3 {
        channels.put(&outlets, pcm.as_mut_slice());
    }
    Ok(pcm)
}

/// Fills the inputs of the second instance, before anything ran.
fn fill_second(alloc: Global, setup: &Setup) -> Result<bool, Fail>
    requires { IsReady setup.now }
{
    let outlets = Outlets::new(alloc, setup)?;
    let mut inlets = Inlets::new(alloc, setup)?;
    if setup.decls.len() != 2 {
        return Ok(false);
    }
    inlets.fill(1, &outlets);
    Ok(true)
}

fn is_second_filled(alloc: Global) -> Result<bool, Fail> {
    let setup = setup(alloc, CIRCLE.as_bytes())?;
    fill_second(alloc, &setup)
}

fn heard(alloc: Global) -> Result<Vec<u8>, Fail> {
    let setup = setup(alloc, CIRCLE.as_bytes())?;
    quiet_block(alloc, &setup)
}

#[test]
fn inputs_are_filled(rt: HostRuntime) -> Result<(), Fail> {
    assert!(rt; is_second_filled(rt.alloc())?);
    Ok(())
}

#[test]
fn nothing_is_heard(rt: HostRuntime) -> Result<(), Fail> {
    let pcm = heard(rt.alloc())?;
    assert!(rt; pcm.as_slice() == [0, 0, 0, 0, 0, 0].as_slice());
    Ok(())
}
