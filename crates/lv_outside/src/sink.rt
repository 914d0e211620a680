ghost use Rattle.std.specs.Prelude.{◌≡◌, ◌++◌, IsTrue};
ghost use Rattle.lv_outside.specs.Count.{Counted};
ghost use Rattle.lv_outside.specs.Taken.{TakesFront};
ghost use Rattle.lv_outside.specs.World.{SinkState};

use crate::Put;

/// Where bytes are put one after another, as standard output.
pub trait Sink {
    /// What is known of it: what it has taken, and how often the outside failed.
    ghost state: { Self → SinkState };

    /// Adds these bytes to what the sink has taken. A failure adds some front of them.
    fn put(&mut self, bytes: &[u8]) -> Put
        ensures done { IsTrue (state self.old).tells → result ≡ Put.Done → (state self.new).taken ≡ (state self.old).taken ++ bytes.now }
        ensures front { IsTrue (state self.old).tells → TakesFront (state self.old).taken (state self.new).taken bytes.now }
        ensures known { IsTrue (state self.old).tells → IsTrue (state self.new).tells }
        ensures failed { Counted (state self.old).faults (state self.new).faults (result ≡ Put.Failed) };
}
