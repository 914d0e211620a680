ghost use Rattle.std.specs.Prelude.{◌≡◌, length};
ghost use Rattle.audio_api.specs.Ports.{ArePortsOf, outputs_of, reference_of};

use audio_api::{Front, Ins, Outs, Ports};
use host_main::StockFront;
use lv_base::{Fixed, NoMemory, Sample};
use std::process::Abort;

/// The whole life of any front, with one run.
fn play<F: Front>(front: &mut F, ports: &mut Ports<'_>)
    requires { ArePortsOf (F.uri_of front.old) ports.old }
    ensures places { length (outputs_of ports.new).blocks ≡ length (outputs_of ports.old).blocks }
    ensures same_reference { reference_of ports.new ≡ reference_of ports.old }
{
    front.activate();
    front.run(ports);
    front.deactivate();
}

fn assert_samples<R: Abort>(rt: &R, got: &[Sample], wanted: &[Sample]) {
    assert!(rt; got == wanted);
}

#[test]
fn a_constant_fills_the_block(rt: HostRuntime) -> Result<(), NoMemory> {
    let mut outs = Outs::with_room(rt.alloc(), 1, 3, 0)?;
    let mut ins = Ins::with_ports(rt.alloc(), 2, 3)?;
    // 200, which is beyond the greatest sample.
    ins.set_value(0, Fixed(3_355_443_200));
    let mut ports = Ports::over(&ins, &[0, 0], &mut outs);
    play(&mut StockFront::Constant, &mut ports);
    let most = Sample(2_147_483_647);
    assert_samples(&rt, outs.block(0), &[most, most, most]);
    Ok(())
}

#[test]
fn an_amplifier_scales_its_input(rt: HostRuntime) -> Result<(), NoMemory> {
    let mut outs = Outs::with_room(rt.alloc(), 1, 3, 0)?;
    let mut ins = Ins::with_ports(rt.alloc(), 3, 3)?;
    // One half: three parts become one, and minus three parts minus two.
    ins.set_value(0, Fixed(8_388_608));
    ins.set_block(1, &[Sample(3), Sample(-3), Sample(16_777_216)]);
    let mut ports = Ports::over(&ins, &[0, 0, 0], &mut outs);
    play(&mut StockFront::Amplifier, &mut ports);
    let halves = [Sample(1), Sample(-2), Sample(8_388_608)];
    assert_samples(&rt, outs.block(0), &halves);
    Ok(())
}
