ghost use Rattle.std.specs.Prelude.{◌≡◌, [], ◌∷◌, ◌++◌, IfOk, OnOk, OnErr};

use crate::Entry;
use lv_base::{Items, NoMemory};
use std::alloc::Global;
use std::marker::Model;

/// The step record: the entries of all actors, in the one order in which they happened. Contracts see the list.
#[derive(Debug, Drop)]
pub struct Record {
    entries: Items<Entry>,
}

impl Model for Record {
    ghost use Rattle.std.specs.Prelude.{List};
    ghost use Rattle.step_law.specs.declared.entry.Entry.{Entry};

    ghost Value = { List Entry };

    ghost view = { λ steps. steps.entries };
}

impl Record {
    /// A record without entries. It takes no memory.
    pub fn new(alloc: Global) -> Self
        ensures { result ≡ [] }
    {
        Record {
            entries: Items::new(alloc),
        }
    }

    /// A record without entries that has room for so many, so that none of them moves those before it.
    pub(crate) fn with_room(alloc: Global, room: usize) -> Result<Self, NoMemory>
        ensures { IfOk result (λ steps. steps ≡ []) }
    {
        Ok(Record {
            entries: Items::from_vec(Vec::with_capacity(alloc, room)?),
        })
    }

    /// Adds an entry at the end. A refusal leaves all as before.
    pub fn push(&mut self, entry: Entry) -> Result<(), NoMemory>
        ensures ok { OnOk result (self.new ≡ self.old ++ entry ∷ []) }
        ensures err { OnErr result (self.new ≡ self.old) }
    {
        self.entries.push(entry)?;
        Ok(())
    }

    /// The entries, the first one first.
    pub fn entries(&self) -> &[Entry]
        ensures { result.now ≡ self.now }
    {
        self.entries.as_slice()
    }
}
