ghost use Rattle.std.specs.Prelude.{◌≡◌, [], ◌∷◌, ◌++◌, OnOk, OnErr};

use lv_base::{Bytes, NoMemory};
use std::alloc::Global;

/// What control asked of instances, and what it was told by them, each in order.
#[derive(Drop)]
pub struct Requests {
    /// The number of an instance, and that of the action.
    pub asks: Vec<(u32, u32)>,
    /// The number of an instance, and the bytes of the message.
    pub tolds: Vec<(u32, Bytes)>,
}

impl Requests {
    /// Nothing asked and nothing told. It takes no memory.
    pub fn new(alloc: Global) -> Self
        ensures asks { result.asks.items ≡ [] }
        ensures tolds { result.tolds.items ≡ [] }
    {
        Requests {
            asks: Vec::new(alloc),
            tolds: Vec::new(alloc),
        }
    }

    /// An instance was asked for an action. A refusal leaves all as before.
    pub fn asked(&mut self, inst: u32, action: u32) -> Result<(), NoMemory>
        ensures ok { OnOk result (self.new.asks.items ≡ self.old.asks.items ++ (inst, action) ∷ []) }
        ensures err { OnErr result (self.new.asks.items ≡ self.old.asks.items) }
        ensures tolds { self.new.tolds ≡ self.old.tolds }
    {
        self.asks.push((inst, action))?;
        Ok(())
    }

    /// An instance told this. A refusal leaves all as before.
    pub fn told(&mut self, inst: u32, body: &[u8]) -> Result<(), NoMemory>
        ensures ok { OnOk result (self.new.tolds.items ≡ self.old.tolds.items ++ (inst, body.now) ∷ []) }
        ensures err { OnErr result (self.new.tolds.items ≡ self.old.tolds.items) }
        ensures asks { self.new.asks ≡ self.old.asks }
    {
        let told = Bytes::from_slice(*self.tolds.allocator(), body)?;
        self.tolds.push((inst, told))?;
        Ok(())
    }
}
