ghost use Rattle.std.specs.Prelude.{◌≡◌, ◌↔◌, ◌<◌, ◌-◌, ◌∷◌, ◌++◌, [], if◌then◌else◌, take, length, slice_get, unwrap_or, Contains, IsTrue, IfOk, OnOk, OnErr};
ghost use Rattle.triple_store.specs.Late.{AreLate};
ghost use Rattle.triple_store.specs.Triples.{Adds};
ghost use Rattle.triple_store.specs.declared.fault.TheConstants.{MOST_ROWS};

use crate::Triple;
use indexmap::IndexSet;
use lv_base::NoMemory;
use seeded_hash::SeededHash;
use std::alloc::Global;

/// How many rows of a subject are compared one by one where a triple is looked for. Its further ones are looked up by a hash.
pub const COMPARED: usize = 16;

type Hashed = IndexSet<Triple, SeededHash>;

/// The late rows: those that `COMPARED` others of their subject precede. Most subjects have none, so most rows are never hashed.
#[derive(Drop)]
pub struct Late {
    pub(crate) rows: Hashed,
    // At each row of the store, how many late ones there are up to it.
    pub(crate) counts: Vec<u32>,
}

fn contains(rows: &Hashed, triple: &Triple) -> bool
    ensures { IsTrue result ↔ Contains rows.now.keys triple.now }
{
    rows.contains(triple)
}

fn insert(rows: &mut Hashed, triple: Triple) -> Result<bool, NoMemory>
    ensures ok { IfOk result (λ is_new. Adds rows.old.keys triple is_new rows.new.keys) }
    ensures err { OnErr result (rows.new.keys ≡ rows.old.keys) }
{
    let (_, is_new) = rows.insert_full(triple)?;
    Ok(is_new)
}

// Keeps a new triple, if it is late.
fn keep(rows: &mut Hashed, triple: &Triple, is_late: bool) -> Result<(), NoMemory>
    requires { ¬ Contains rows.old.keys triple.now }
    ensures ok { OnOk result (rows.new.keys ≡ (if is_late then rows.old.keys ++ triple.now ∷ [] else rows.old.keys)) }
    ensures err { OnErr result (rows.new.keys ≡ rows.old.keys) }
{
    if !is_late {
        return Ok(());
    }
    insert(rows, triple.clone()?)?;
    Ok(())
}

impl Late {
    pub(crate) fn new(alloc: Global, hashing: SeededHash) -> Self
        ensures { AreLate result [] }
    {
        Late {
            rows: IndexSet::with_hasher(alloc, hashing),
            counts: Vec::new(alloc),
        }
    }

    pub(crate) fn hashing(&self) -> SeededHash {
        *self.rows.hasher()
    }

    // Whether a triple is a late row.
    pub(crate) fn has(&self, triple: &Triple) -> bool
        ensures { IsTrue result ↔ Contains self.now.rows.keys triple.now }
    {
        contains(&self.rows, triple)
    }

    // Counts a new row, and keeps it if it is late. A refusal leaves all as before.
    pub(crate) fn add(&mut self, triple: &Triple, is_late: bool) -> Result<(), NoMemory>
        requires few { length self.old.rows.keys < MOST_ROWS }
        requires new { ¬ Contains self.old.rows.keys triple.now }
        ensures rows { OnOk result (self.new.rows.keys ≡ (if is_late then self.old.rows.keys ++ triple.now ∷ [] else self.old.rows.keys)) }
        ensures counts { OnOk result (self.new.counts.items ≡ self.old.counts.items ++ length self.new.rows.keys ∷ []) }
        ensures same_rows { OnErr result (self.new.rows.keys ≡ self.old.rows.keys) }
        ensures same_counts { OnErr result (self.new.counts.items ≡ self.old.counts.items) }
    {
        self.counts.reserve(1)?;
        keep(&mut self.rows, triple, is_late)?;
        self.counts.push_reserved(self.rows.len() as u32);
        Ok(())
    }

    // Keeps those among the first `rows` rows of the store.
    pub(crate) fn cut(&mut self, rows: usize)
        ensures counts { self.new.counts.items ≡ take rows self.old.counts.items }
        ensures rows { self.new.rows.keys ≡ take (unwrap_or (slice_get self.new.counts.items (length self.new.counts.items - 1)) 0) self.old.rows.keys }
    {
        self.counts.truncate(rows);
        let left = self.counts.last().copied().unwrap_or(0);
        self.rows.truncate(left as usize);
    }
}
