use audio_api::{Ins, Outs, Ports, StockPorts};
use lv_base::{Fixed, NoMemory, Sample, Text};
use std::process::Abort;

fn assert_samples<R: Abort>(rt: &R, got: &[Sample], wanted: &[Sample]) {
    assert_eq!(rt; got, wanted);
}

fn assert_value<R: Abort>(rt: &R, got: Fixed, wanted: i64) {
    assert_eq!(rt; got.0, wanted);
}

#[test]
fn ports_lend_values(rt: HostRuntime) -> Result<(), NoMemory> {
    let alloc = rt.alloc();
    let mut outs = Outs::with_room(alloc, 1, 2, 0)?;
    let mut ins = Ins::with_ports(alloc, 3, 2)?;
    ins.set_value(0, Fixed(7));
    let ports = Ports::over(&ins, &[0, 0, 0], &mut outs);
    assert_value(&rt, ports.value(0), 7);
    assert_value(&rt, ports.value(1), 0);
    Ok(())
}

#[test]
fn ports_lend_inputs_and_outputs(rt: HostRuntime) -> Result<(), NoMemory> {
    let alloc = rt.alloc();
    let mut outs = Outs::with_room(alloc, 2, 2, 1)?;
    let mut ins = Ins::with_ports(alloc, 3, 2)?;
    ins.set_block(1, &[Sample(5), Sample(-6)]);
    let mut ports = Ports::over(&ins, &[0, 0, 1], &mut outs);
    let input = ports.input(1);
    ports.output(2).copy_from_slice(input);
    assert_samples(&rt, outs.block(0), &[Sample(0), Sample(0)]);
    assert_samples(&rt, outs.block(1), &[Sample(5), Sample(-6)]);
    Ok(())
}

#[test]
fn outputs_are_made_silent(rt: HostRuntime) -> Result<(), NoMemory> {
    let mut outs = Outs::with_room(rt.alloc(), 2, 2, 1)?;
    outs.block_mut(1).copy_from(&[Sample(5), Sample(-6)]);
    outs.silence();
    assert_samples(&rt, outs.block(1), &[Sample(0), Sample(0)]);
    assert_value(&rt, outs.value(0), 0);
    Ok(())
}

#[test]
fn an_amplifier_has_three_ports(rt: HostRuntime) -> Result<(), NoMemory> {
    let uri = Text::from_str(rt.alloc(), "urn:lv2fx:amp")?;
    let ports = StockPorts::of(&uri);
    assert_value(&rt, ports.first, 16_777_216);
    Ok(())
}
