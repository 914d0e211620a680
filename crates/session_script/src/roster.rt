ghost use Rattle.std.specs.Prelude.{◌≡◌, [], ◌∷◌, ◌++◌, ◌<◌, ◌^◌, length, OnOk, string_bytes};
ghost use Rattle.session_script.specs.Places as spec;
ghost use Rattle.session_script.specs.Places.{is_there};

use crate::session::Inst;
use lv_base::{Items, NoMemory};
use std::alloc::Global;
use std::collections::BTreeMap;
use std::marker::Model;

/// Instances, found by their names. Contracts see the list of them.
#[derive(Drop)]
pub(crate) struct Roster {
    insts: Items<Inst>,
    numbers: BTreeMap<String, u32>,
}

impl Model for Roster {
    ghost use Rattle.std.specs.Prelude.{List};
    ghost use Rattle.session_script.specs.declared.session.Inst.{Inst};

    ghost Value = { List Inst };

    ghost use Rattle.session_script.specs.Roster.{insts_in, IsFoundByName};

    ghost view = { insts_in };

    ghost invariant = { IsFoundByName };
}

impl Roster {
    pub(crate) fn new(alloc: Global) -> Self
        ensures { result ≡ [] }
    {
        Roster {
            insts: Items::new(alloc),
            numbers: BTreeMap::new(alloc),
        }
    }

    pub(crate) fn len(&self) -> usize
        ensures { result ≡ length self.now }
    {
        self.insts.len()
    }

    /// The number of the instance with this name, or of all instances where there is none.
    pub(crate) fn place(&self, name: &str) -> u32
        requires { length self.now < 2 ^ 32 }
        ensures { result ≡ spec.place self.now name.now }
    {
        match self.numbers.get(name) {
            Some(number) => *number,
            None => self.insts.len() as u32,
        }
    }

    /// Whether there is an instance of this name.
    pub(crate) fn has(&self, name: &str) -> bool
        ensures { result ≡ is_there self.now name.now }
    {
        self.numbers.get(name).is_some()
    }

    /// Adds an instance of a new name.
    pub(crate) fn push(&mut self, alloc: Global, inst: Inst) -> Result<(), NoMemory>
        requires few { length self.old < 2 ^ 32 }
        requires new { spec.place self.old inst.name ≡ length self.old }
        ensures pushed { OnOk result (self.new ≡ self.old ++ inst ∷ []) }
    {
        let name = String::from_str(alloc, inst.name.as_str())?;
        self.enter(name, inst)
    }

    /// Adds an instance of a new name, with a text of its name.
    fn enter(&mut self, name: String, inst: Inst) -> Result<(), NoMemory>
        requires few { length self.old < 2 ^ 32 }
        requires new { spec.place self.old inst.name ≡ length self.old }
        requires named { string_bytes name ≡ inst.name }
        ensures pushed { OnOk result (self.new ≡ self.old ++ inst ∷ []) }
    {
        let number = self.insts.len() as u32;
        self.insts.push(inst)?;
        match self.numbers.insert(name, number) {
            Ok(_) => Ok(()),
            Err(_) => {
                self.insts.pop();
                Err(NoMemory)
            }
        }
    }

    pub(crate) fn into_items(self) -> Items<Inst>
        ensures { result ≡ self }
    {
        self.insts
    }
}
