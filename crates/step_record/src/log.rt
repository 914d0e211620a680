ghost use Rattle.std.specs.Prelude.{◌≡◌, ◌≤◌, ◌<◌, [], IfOk, OnOk, OnErr};
ghost use Rattle.step_record.specs.Log.{with_entry};

use crate::Entry;
use lv_base::NoMemory;
use std::alloc::Global;
use std::marker::Model;

/// The entries of one actor, each with its ticket, and room for some more.
#[derive(Drop)]
pub struct Log {
    marks: Vec<(u64, Entry)>,
    spare: usize,
}

impl Model for Log {
    ghost use Rattle.std.specs.Prelude.{◌≤◌, ◌+◌, vec_len, vec_capacity};
    ghost use Rattle.step_record.specs.Log.{Logged};

    ghost Value = { Logged };

    ghost view = { λ log. record { items = log.marks.items; spare = log.spare } };

    ghost invariant = { λ log. vec_len log.marks + log.spare ≤ vec_capacity log.marks };
}

impl Log {
    /// A log with room for so many entries.
    pub fn with_room(alloc: Global, room: u64) -> Result<Self, NoMemory>
        ensures items { IfOk result (λ log. log.items ≡ []) }
        ensures spare { IfOk result (λ log. log.spare ≡ room) }
    {
        let spare = room as usize;
        let marks = Vec::with_capacity(alloc, spare)?;
        Ok(Log { marks, spare })
    }

    /// Makes room for at least so many more. A refusal leaves all as before.
    pub fn grow(&mut self, room: u64) -> Result<(), NoMemory>
        ensures items { self.new.items ≡ self.old.items }
        ensures ok { OnOk result (room ≤ self.new.spare) }
        ensures more { self.old.spare ≤ self.new.spare }
        ensures err { OnErr result (self.new ≡ self.old) }
    {
        let room = room as usize;
        if self.spare < room {
            self.marks.reserve(room)?;
            self.spare = room;
        }
        Ok(())
    }

    /// Puts an entry with its ticket. There must be room for it.
    pub fn put(&mut self, ticket: u64, entry: Entry)
        requires { 1 ≤ self.old.spare }
        ensures { self.new ≡ with_entry self.old ticket entry }
    {
        self.spare -= 1;
        let _ = self.marks.push((ticket, entry));
    }

    /// What was put, in order.
    pub fn items(&self) -> &[(u64, Entry)]
        ensures { result.now ≡ self.now.items }
    {
        self.marks.as_slice()
    }

    /// For how many more there is room.
    pub fn spare(&self) -> u64
        ensures { result ≡ self.now.spare }
    {
        self.spare as u64
    }
}
