ghost use Rattle.std.specs.Prelude.{◌≡◌, ◌-◌, ◌^◌, ◌<◌, ◌++◌, [], false, true, length, IfOk};
ghost use Rattle.atom_core.specs.Value.{int, long, fixed, urid, string, plain, keyed, timed, object, sequence};
ghost use Rattle.atom_core.specs.Spelling.{lead_bytes};
ghost use Rattle.atom_core.specs.Fits.{IsText};
ghost use Rattle.atom_core.specs.Answer.{most_containers};
ghost use Rattle.atom_forge.specs.declared.level.Holds.TheVariants.{Properties, Events};
ghost use Rattle.atom_forge.specs.Forged.{TakesAtom, TakesLead, IsComplete, opening, with_piece, with_container, closed, up_to, IsForged, IsBodyOf, IsLead, Begins, Puts, PutsBody, PutsAtom};

use crate::level::{Holds, Level};
use crate::mark::Mark;
use crate::piece::{padded, put, put_atom, put_number, put_zeros, set_number};
use crate::room::NoRoom;
use atom_core::AtomView;
use lv_base::{Fixed, NoMemory};
use std::alloc::Global;
use std::marker::Model;

const INT: u32 = 1;

const LONG: u32 = 2;

const URID: u32 = 4;

const STRING: u32 = 5;

const OBJECT: u32 = 9;

const SEQUENCE: u32 = 10;

const FIXED: u32 = 14;

/// In how many containers an atom may stand, and one that holds nothing within them.
const LEVELS: usize = 17;

/// A writer of atoms. Contracts see its room, its bytes, the containers that are open, and whether a key or an event waits for its atom.
#[derive(Drop)]
pub struct Forge {
    bytes: Vec<u8>,
    room: usize,
    levels: Vec<Level>,
    waits: bool,
}

impl Model for Forge {
    ghost use Rattle.atom_forge.specs.Forged.{Forged};

    ghost Value = { Forged };

    ghost use Rattle.atom_forge.specs.Inside.{view_of, IsSound};

    ghost view = { view_of };

    ghost invariant = { IsSound };
}

impl Forge {
    /// An empty forge with room for so many bytes. No other call takes memory.
    pub fn with_room(alloc: Global, room: u32) -> Result<Self, NoMemory>
        ensures { IfOk result (λ forge. forge ≡ record { room = room; bytes = []; levels = []; waits = false }) }
    {
        let room = room as usize;
        let bytes = Vec::with_capacity(alloc, room)?;
        let levels = Vec::with_capacity(alloc, LEVELS)?;
        Ok(Forge {
            bytes,
            room,
            levels,
            waits: false,
        })
    }

    /// Empties the forge. Its room stays.
    pub fn clear(&mut self)
        ensures { self.new ≡ record { room = self.old.room; bytes = []; levels = []; waits = false } }
    {
        self.bytes.clear();
        self.levels.clear();
        self.waits = false;
    }

    /// The bytes that are finished. The size of a container that is open is still zero.
    pub fn done(&self) -> &[u8]
        ensures { result.now ≡ self.now.bytes }
    {
        self.bytes.as_slice()
    }

    /// The atom that is finished.
    pub fn view(&self) -> AtomView<'_>
        requires whole { self.now.levels ≡ [] }
        requires one { 0 < length self.now.bytes }
        ensures { result.bytes.now ≡ self.now.bytes }
    {
        AtomView::over(self.bytes.as_slice())
    }

    /// Writes an atom whose body is in two pieces.
    fn atom(&mut self, kind: u32, body: &[u8], rest: &[u8]) -> Result<(), NoRoom>
        requires takes { TakesAtom self.old }
        requires body { length (body.now ++ rest.now) < 2 ^ 32 → IsBodyOf (most_containers - length self.old.levels) kind (body.now ++ rest.now) }
        ensures { PutsBody self.old kind (body.now ++ rest.now) result self.new }
    {
        let left = self.room - self.bytes.len();
        if left < 8 || left - 8 < body.len() || left - 8 - body.len() < rest.len() {
            return Err(NoRoom);
        }
        let size = 8 + body.len() + rest.len();
        let whole = if self.levels.is_empty() {
            size
        } else {
            padded(size)
        };
        if left < whole {
            return Err(NoRoom);
        }
        put_atom(&mut self.bytes, kind, body, rest);
        put_zeros(&mut self.bytes, whole - size);
        self.waits = false;
        Ok(())
    }

    /// Writes an Int.
    #[tactic(auto, unfolding(atom_core::specs::Spelling::i32))]
    pub fn int(&mut self, v: i32) -> Result<(), NoRoom>
        requires { TakesAtom self.old }
        ensures { PutsAtom self.old (plain (int v)) result self.new }
    {
        self.atom(INT, &[], &v.to_le_bytes())
    }

    /// Writes a Long.
    #[tactic(auto, unfolding(atom_core::specs::Spelling::i64))]
    pub fn long(&mut self, v: i64) -> Result<(), NoRoom>
        requires { TakesAtom self.old }
        ensures { PutsAtom self.old (plain (long v)) result self.new }
    {
        self.atom(LONG, &[], &v.to_le_bytes())
    }

    /// Writes a Fixed.
    #[tactic(auto, unfolding(atom_core::specs::Spelling::i64))]
    pub fn fixed(&mut self, v: Fixed) -> Result<(), NoRoom>
        requires { TakesAtom self.old }
        ensures { PutsAtom self.old (plain (fixed v.0)) result self.new }
    {
        self.atom(FIXED, &[], &v.0.to_le_bytes())
    }

    /// Writes a URID.
    #[tactic(auto, unfolding(atom_core::specs::Spelling::u32))]
    pub fn urid(&mut self, v: u32) -> Result<(), NoRoom>
        requires { TakesAtom self.old }
        ensures { PutsAtom self.old (plain (urid v)) result self.new }
    {
        self.atom(URID, &[], &v.to_le_bytes())
    }

    /// Writes a String: a text, and its zero.
    pub fn string(&mut self, v: &[u8]) -> Result<(), NoRoom>
        requires takes { TakesAtom self.old }
        requires text { IsText v.now }
        ensures { PutsAtom self.old (plain (string v.now)) result self.new }
    {
        self.atom(STRING, v, &[0])
    }

    /// Writes an atom of any type: the one of some value, by its type and its body.
    pub fn raw(&mut self, kind: u32, body: &[u8]) -> Result<(), NoRoom>
        requires takes { TakesAtom self.old }
        requires body { IsBodyOf (most_containers - length self.old.levels) kind body.now }
        ensures { PutsBody self.old kind body.now result self.new }
    {
        self.atom(kind, &[], body)
    }

    /// Opens a container, with two numbers before its parts.
    fn container(&mut self, kind: u32, holds: Holds, first: u32, second: u32) -> Result<(), NoRoom>
        requires takes { TakesAtom self.old }
        requires begins { Begins holds (opening kind first second) }
        ensures { Puts self.old (opening kind first second) (with_container self.old holds (opening kind first second)) result self.new }
    {
        if self.room - self.bytes.len() < 16 {
            return Err(NoRoom);
        }
        let at = self.bytes.len();
        put_number(&mut self.bytes, 0);
        put_number(&mut self.bytes, kind);
        put_number(&mut self.bytes, first);
        put_number(&mut self.bytes, second);
        let _ = self.levels.push(Level { holds, at });
        self.waits = false;
        Ok(())
    }

    /// Opens an Object with an id and a type.
    pub fn object(&mut self, id: u32, otype: u32) -> Result<(), NoRoom>
        requires { TakesAtom self.old }
        ensures { Puts self.old (opening 9 id otype) (with_container self.old Properties (opening 9 id otype)) result self.new }
    {
        self.container(OBJECT, Holds::Properties, id, otype)
    }

    /// Opens a Sequence of events at frames.
    pub fn sequence(&mut self) -> Result<(), NoRoom>
        requires { TakesAtom self.old }
        ensures { Puts self.old (opening 10 0 0) (with_container self.old Events (opening 10 0 0)) result self.new }
    {
        self.container(SEQUENCE, Holds::Events, 0, 0)
    }

    /// Writes what stands before the atom of a part.
    fn lead(&mut self, first: &[u8], second: &[u8]) -> Result<(), NoRoom>
        requires { IsLead self.old (first.now ++ second.now) }
        ensures { Puts self.old (first.now ++ second.now) (with_piece self.old (first.now ++ second.now) true) result self.new }
    {
        let left = self.room - self.bytes.len();
        if left < first.len() || left - first.len() < second.len() {
            return Err(NoRoom);
        }
        put(&mut self.bytes, first);
        put(&mut self.bytes, second);
        self.waits = true;
        Ok(())
    }

    /// Writes the time of an event. Its atom must follow.
    #[tactic(auto, unfolding(atom_core::specs::Spelling::i64))]
    pub fn event(&mut self, time: i64) -> Result<(), NoRoom>
        requires { TakesLead self.old Events }
        ensures { Puts self.old (lead_bytes (timed time)) (with_piece self.old (lead_bytes (timed time)) true) result self.new }
    {
        self.lead(&[], &time.to_le_bytes())
    }

    /// Writes the key of a property, with no context. Its atom must follow.
    #[tactic(auto, unfolding(atom_core::specs::Spelling::u32))]
    pub fn key(&mut self, key: u32) -> Result<(), NoRoom>
        requires { TakesLead self.old Properties }
        ensures { Puts self.old (lead_bytes (keyed key 0)) (with_piece self.old (lead_bytes (keyed key 0)) true) result self.new }
    {
        self.lead(&key.to_le_bytes(), &[0; 4])
    }

    /// Closes the innermost container.
    pub fn pop(&mut self)
        requires { IsComplete self.old }
        ensures { self.new ≡ closed self.old }
    {
        if let Some(level) = self.levels.pop() {
            let size = self.bytes.len() - level.at - 8;
            set_number(&mut self.bytes, level.at, size as u32);
        }
    }

    /// How far the forge has come.
    pub fn mark(&self) -> Mark
        ensures len { result.len ≡ length self.now.bytes }
        ensures levels { result.levels ≡ length self.now.levels }
        ensures waits { result.waits ≡ self.now.waits }
        ensures here { up_to result self.now ≡ self.now }
        ensures forged { IsForged self.now }
        ensures small { self.now.room < 2 ^ 32 }
    {
        Mark {
            len: self.bytes.len(),
            levels: self.levels.len(),
            waits: self.waits,
        }
    }

    /// Takes back what was written since the mark. No container that was open then may be closed since.
    pub fn back(&mut self, mark: Mark)
        requires { IsForged (up_to mark self.old) }
        ensures { self.new ≡ up_to mark self.old }
    {
        self.bytes.truncate(mark.len);
        self.levels.truncate(mark.levels);
        self.waits = mark.waits;
    }
}
