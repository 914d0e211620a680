use lv_outside::{Gate, MemSink, OpenGate, OutSink, Point, Put, Sink};
use std::test::Fail;

/// Whether a sink whose second call is to fail takes the first and the third.
fn takes_two_of_three(sink: &mut MemSink) -> bool {
    let first = sink.put(b"one ");
    let second = sink.put(b"two ");
    let third = sink.put(b"three");
    first == Put::Done
        && second == Put::Failed
        && third == Put::Done
        && sink.taken() == b"one three".as_slice()
}

#[test]
fn a_sink_in_memory_takes(rt: HostRuntime) -> Result<(), Fail> {
    let fails = [1].to_vec(rt.alloc())?;
    let mut sink = MemSink::new(rt.alloc(), fails);
    assert!(rt; takes_two_of_three(&mut sink));
    Ok(())
}

#[test]
fn output_and_an_open_gate(rt: HostRuntime) {
    let mut sink = OutSink::new(&rt);
    assert!(rt; sink.put(b"lv_outside\n") == Put::Done);
    OpenGate.pass(Point::BlockBefore(0));
}
