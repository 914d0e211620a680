ghost use Rattle.std.specs.Prelude.{◌≡◌, ◌++◌, [], IsTrue, true, false};
ghost use Rattle.lv_outside.specs.Count.{Counted};
ghost use Rattle.lv_outside.specs.Taken.{TakesFront};
ghost use Rattle.lv_outside.specs.MemorySink.{known_sink, is_sink_due, after_put};

use crate::{Put, Sink};
use lv_base::{Bytes, Items};
use std::alloc::Global;
use std::marker::Model;

/// A sink in memory, which fails at the calls that it is told to.
#[derive(Drop)]
pub struct MemSink {
    taken: Bytes,
    fails: Items<u64>,
    calls: u64,
    faults: u64,
}

impl Model for MemSink {
    ghost use Rattle.lv_outside.specs.MemorySink.{MemSinkState};

    ghost Value = { MemSinkState };

    ghost view = { λ sink. record { taken = sink.taken; fails = sink.fails; calls = sink.calls; faults = sink.faults } };
}

impl MemSink {
    /// A sink that has taken nothing. `fails` are the numbers, from 0, of the calls that are to fail.
    pub fn new(alloc: Global, fails: Vec<u64>) -> Self
        ensures { result ≡ record { taken = []; fails = fails.items; calls = 0; faults = 0 } }
    {
        MemSink {
            taken: Bytes::new(alloc),
            fails: Items::from_vec(fails),
            calls: 0,
            faults: 0,
        }
    }

    pub fn taken(&self) -> &[u8]
        ensures { result.now ≡ self.now.taken }
    {
        self.taken.as_slice()
    }
}

impl Sink for MemSink {
    ghost state = { known_sink };

    fn put(&mut self, bytes: &[u8]) -> Put
        ensures done { result ≡ Put.Done → self.new.taken ≡ self.old.taken ++ bytes.now }
        ensures front { TakesFront self.old.taken self.new.taken bytes.now }
        ensures failed { Counted self.old.faults self.new.faults (result ≡ Put.Failed) }

        // A call that is to fail fails. Another fails only for want of memory.
        ensures due { result ≡ Put.Done → is_sink_due self.old ≡ false }
        ensures after { self.new ≡ after_put self.old bytes.now result }
    {
        let due = self.fails.as_slice().contains(&self.calls);
        self.calls = self.calls.saturating_add(1);
        if !due && self.taken.push_all(bytes).is_ok() {
            return Put::Done;
        }
        self.faults = self.faults.saturating_add(1);
        Put::Failed
    }
}
