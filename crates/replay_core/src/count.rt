ghost use Rattle.std.specs.Prelude.{◌≡◌, ◌<◌, ◌^◌};
ghost use Rattle.step_record.specs.Ring.{ring_number};
ghost use Rattle.replay_core.specs.Summary as summary;

use step_record::{Call, Entry, Kind, Ring};

/// How often a call on an instance has ended.
pub(crate) fn ended(steps: &[Entry], call: Call, inst: u32) -> usize
    ensures { result ≡ summary.ended call inst steps.now }
{
    let call = call.number();
    steps
        .iter()
        .filter(|e| matches!(e.kind, Kind::End) && e.a == call && e.b == inst)
        .count()
}

/// How many messages a ring, or a second one, took.
pub(crate) fn sent(steps: &[Entry], ring: Ring, second: Ring) -> usize
    requires ring { ring_number ring < 2 ^ 32 }
    requires second { ring_number second < 2 ^ 32 }
    ensures { result ≡ summary.sent ring second steps.now }
{
    let ring = ring.number();
    let second = second.number();
    steps
        .iter()
        .filter(|e| matches!(e.kind, Kind::Send) && (e.a == ring || e.a == second))
        .count()
}

/// How many messages a ring, or a second one, refused.
pub(crate) fn refused(steps: &[Entry], ring: Ring, second: Ring) -> usize
    requires ring { ring_number ring < 2 ^ 32 }
    requires second { ring_number second < 2 ^ 32 }
    ensures { result ≡ summary.refused ring second steps.now }
{
    let ring = ring.number();
    let second = second.number();
    steps
        .iter()
        .filter(|e| matches!(e.kind, Kind::Full | Kind::Long) && (e.a == ring || e.a == second))
        .count()
}

/// How many things happened before the end.
pub(crate) fn events(steps: &[Entry]) -> usize
    ensures { result ≡ summary.events steps.now }
{
    steps
        .iter()
        .filter(|e| !matches!(e.kind, Kind::Last))
        .count()
}
