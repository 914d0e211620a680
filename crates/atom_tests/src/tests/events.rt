use atom_core::{AtomView, events_of, read};

/// A sequence of an Int at frame 3 and one at frame 5.
const SEQUENCE: [u8; 64] = [
    56, 0, 0, 0, 10, 0, 0, 0, 0, 0, 0, 0, 0, 0, 0, 0, 3, 0, 0, 0, 0, 0, 0, 0, 4, 0, 0, 0, 1, 0, 0,
    0, 7, 0, 0, 0, 0, 0, 0, 0, 5, 0, 0, 0, 0, 0, 0, 0, 4, 0, 0, 0, 1, 0, 0, 0, 8, 0, 0, 0, 0, 0, 0,
    0,
];

fn is_event(found: Option<(i64, AtomView<'_>)>, time: i64, number: i32) -> bool {
    match found {
        Some((at, view)) => at == time && view.int() == Some(number),
        None => false,
    }
}

#[test]
fn events(rt: HostRuntime) {
    if let Ok(view) = read(&SEQUENCE) {
        let mut events = events_of(view).expect(&rt, "a sequence");
        assert!(rt; is_event(events.next(), 3, 7));
        assert!(rt; is_event(events.next(), 5, 8));
        assert!(rt; events.next().is_none());
    }
    assert!(rt; read(&SEQUENCE).is_ok());
}
