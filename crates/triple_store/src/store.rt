ghost use Rattle.std.specs.Prelude.{◌≡◌, ◌↔◌, ◌<◌, ◌≤◌, ◌-◌, ◌^◌, ◌∷◌, ◌++◌, [], take, length, filter, Contains, IfOk, OnOk, OnErr, IsErrOf, Ok, false};
ghost use Rattle.std.specs.Option.{option_copied};
ghost use Rattle.triple_store.specs.Triples.{blanks_of, blanks_of_triple, Adds, AreDistinct, agrees};
ghost use Rattle.triple_store.specs.Found.{IsFoundAs};
ghost use Rattle.triple_store.specs.declared.store.Found.TheVariants.{Missing};
ghost use Rattle.triple_store.specs.Index.{AreIndexed};
ghost use Rattle.triple_store.specs.Late.{AreLate, EndsInNew};
ghost use Rattle.triple_store.specs.declared.fault.TheConstants.{MOST_ROWS};

use crate::candidates::{Candidates, Chain};
use crate::compared::{Compared, compare};
use crate::late::Late;
use crate::subjects::Subjects;
use crate::{MOST_ROWS, Matching, StoreFault, Term, Triple, term};
use lv_base::NoMemory;
use seeded_hash::SeededHash;
use std::alloc::Global;
use std::marker::Model;
use std::mem;

/// A set of triples in the order in which they were added. Contracts see it as the list of its rows.
///
/// A triple is looked for among the rows of its subject: the first 16 are compared with it one by one, and the further ones are looked
/// up by a hash. Subjects are looked up by hashes too: SipHash-1-3, whose key is a seed of 128 bits. The answers don't depend on
/// this seed, the time does. Whoever knows it can write terms whose hashes agree, and each is compared with all that agree with
/// it, so that n of them take time in n². A program that reads strangers' files takes a random seed, by `with_seed`.
#[derive(Drop)]
pub struct Store {
    rows: Vec<Triple>,
    // At each row, one above the greatest blank number up to it.
    blanks: Vec<u32>,
    subjects: Subjects,
    late: Late,
}

/// What a look for a triple tells.
#[derive(Clone, Copy)]
pub enum Found {
    There,
    Missing {
        /// So many rows have its subject that it would be a late one.
        late: bool,
    },
}

impl Model for Store {
    ghost use Rattle.std.specs.Prelude.{List};
    ghost use Rattle.triple_store.specs.Kept.{IsKept};
    ghost use Rattle.triple_store.specs.declared.term.Triple.{Triple};

    ghost Value = { List Triple };

    ghost view = { λ store. store.rows.items };

    ghost invariant = { λ store. IsKept store.rows.items store.blanks.items store.subjects store.late };
}

impl Store {
    /// A store without rows, whose seed is 0: for triples that come from whom one trusts. It takes no memory.
    pub fn new(alloc: Global) -> Self
        ensures { result ≡ [] }
    {
        Store::with_seed(alloc, 0)
    }

    /// A store without rows, with a seed for its hashes. It takes no memory.
    pub fn with_seed(alloc: Global, seed: u128) -> Self
        ensures { result ≡ [] }
    {
        let hashing = SeededHash::new(seed);
        Store {
            rows: Vec::new(alloc),
            blanks: Vec::new(alloc),
            subjects: Subjects::new(alloc, hashing),
            late: Late::new(alloc, hashing),
        }
    }

    /// The rows, the first one first. No two of them are equal.
    pub fn rows(&self) -> &[Triple]
        ensures value { result.now ≡ self.now }
        ensures distinct { AreDistinct self.now }
    {
        self.rows.as_slice()
    }

    /// The number of rows.
    pub fn count(&self) -> u32
        ensures value { result ≡ length self.now }
        ensures few { result ≤ MOST_ROWS }
    {
        self.rows.len() as u32
    }

    /// One above the greatest blank number of the rows, 0 without one.
    pub fn blanks(&self) -> u32
        ensures { result ≡ blanks_of self.now }
    {
        self.blanks.last().copied().unwrap_or(0)
    }

    /// How it hashes, for tables that are filled beside it from the same source.
    pub fn hashing(&self) -> SeededHash {
        self.late.hashing()
    }

    /// Adds a triple at the end where it is new, and answers whether it was. Blank numbers are below 2^31. The triple
    /// is hashed only where 16 rows have its subject, and its subject mostly where it isn't that of the row before; the time doesn't
    /// grow with the rows.
    ///
    /// `Full` comes exactly where the triple is new and there are `MOST_ROWS` rows. A refusal leaves all as before.
    pub fn add(&mut self, triple: Triple) -> Result<bool, StoreFault>
        requires { blanks_of_triple triple ≤ 2 ^ 31 }
        ensures ok { IfOk result (λ is_new. Adds self.old triple is_new self.new) }
        ensures there { Contains self.old triple → result ≡ Ok false }
        ensures full { IsErrOf result StoreFault.Full ↔ ((length self.old ≡ MOST_ROWS) × (¬ Contains self.old triple)) }
        ensures err { OnErr result (self.new ≡ self.old) }
    {
        let Found::Missing { late } = self.found(&triple) else {
            mem::drop(triple);
            return Ok(false);
        };
        if self.rows.len() == MOST_ROWS {
            mem::drop(triple);
            return Err(StoreFault::Full);
        }
        self.append(triple, late)?;
        Ok(true)
    }

    // Adds a new triple where there is room. A refusal leaves all as before.
    fn append(&mut self, triple: Triple, late: bool) -> Result<(), NoMemory>
        requires room { length self.old < MOST_ROWS }
        requires blanks { blanks_of_triple triple ≤ 2 ^ 31 }
        requires new { IsFoundAs self.old triple (Missing late) }
        ensures ok { OnOk result (self.new ≡ self.old ++ triple ∷ []) }
        ensures err { OnErr result (self.new ≡ self.old) }
    {
        let place = self.rows.len();
        let blanks = self.blanks().max(term::blanks_of(&triple));
        push(&mut self.rows, triple)?;
        let rows = self.rows.as_slice();
        if let Err(NoMemory) = keep(
            &mut self.blanks,
            &mut self.subjects,
            &mut self.late,
            rows,
            blanks,
            late,
        ) {
            self.rows.truncate(place);
            return Err(NoMemory);
        }
        Ok(())
    }

    // Looks for a triple.
    fn found(&self, triple: &Triple) -> Found
        ensures { IsFoundAs self.now triple.now result }
    {
        let left = self.subjects.ends(&triple.s);
        let chain = Chain::new(self.rows.as_slice(), self.subjects.next.as_slice(), left);
        match compare(chain, triple) {
            Compared::There => Found::There,
            Compared::Missing => Found::Missing { late: false },
            Compared::Undecided if self.late.has(triple) => Found::There,
            Compared::Undecided => Found::Missing { late: true },
        }
    }

    /// The rows that agree with the subject, the predicate and the object that are given, in the order in which they were added.
    /// With a subject it goes through the rows of that subject alone, else through all.
    pub fn matching<'a>(
        &'a self,
        s: Option<&'a Term>,
        p: Option<&'a Term>,
        o: Option<&'a Term>,
    ) -> Matching<'a>
        ensures { result ≡ filter (agrees (option_copied s.entry) (option_copied p.entry) (option_copied o.entry)) self.now }
    {
        let rows = self.rows.as_slice();
        match s {
            None => Matching::new(Candidates::All(rows), p, o),
            Some(subject) => {
                let left = self.subjects.ends(subject);
                let chain = Chain::new(rows, self.subjects.next.as_slice(), left);
                Matching::new(Candidates::OfSubject(chain), p, o)
            }
        }
    }

    /// Keeps the first `rows` rows, of which there are at least so many. The time is that of the rows that it drops.
    pub fn cut(&mut self, rows: usize)
        requires { rows ≤ length self.old }
        ensures { self.new ≡ take rows self.old }
    {
        drop_from(&mut self.subjects, self.rows.as_slice(), rows);
        self.late.cut(rows);
        self.rows.truncate(rows);
        self.blanks.truncate(rows);
    }
}

fn push(rows: &mut Vec<Triple>, triple: Triple) -> Result<(), NoMemory>
    ensures ok { OnOk result (rows.new.items ≡ rows.old.items ++ triple ∷ []) }
    ensures err { OnErr result (rows.new.items ≡ rows.old.items) }
{
    if let Err(fault) = rows.reserve(1) {
        mem::drop(triple);
        return Err(fault.into());
    }
    rows.push_reserved(triple);
    Ok(())
}

// Keeps what belongs to the last of these rows. A refusal leaves all as before.
fn keep(
    blanks: &mut Vec<u32>,
    subjects: &mut Subjects,
    late: &mut Late,
    rows: &[Triple],
    most: u32,
    is_late: bool,
) -> Result<(), NoMemory>
    requires some { 0 < length rows.now }
    requires few { length rows.now ≤ MOST_ROWS }
    requires indexed { AreIndexed subjects.old (take (length rows.now - 1) rows.now) }
    requires late { AreLate late.old (take (length rows.now - 1) rows.now) }
    requires new { EndsInNew rows.now is_late }
    ensures blanks { OnOk result (blanks.new.items ≡ blanks.old.items ++ most ∷ []) }
    ensures subjects { OnOk result (AreIndexed subjects.new rows.now) }
    ensures late { OnOk result (AreLate late.new rows.now) }
    ensures same_blanks { OnErr result (blanks.new.items ≡ blanks.old.items) }
    ensures same_subjects { OnErr result (AreIndexed subjects.new (take (length rows.now - 1) rows.now)) }
    ensures same_late { OnErr result (AreLate late.new (take (length rows.now - 1) rows.now)) }
{
    let Some((row, front)) = rows.split_last() else {
        unreachable!();
    };
    blanks.reserve(1)?;
    late.add(row, is_late)?;
    if let Err(NoMemory) = subjects.add(rows) {
        late.cut(front.len());
        return Err(NoMemory);
    }
    blanks.push_reserved(most);
    Ok(())
}

// Drops the rows from `keep` on.
fn drop_from(subjects: &mut Subjects, rows: &[Triple], keep: usize)
    requires within { keep ≤ length rows.now }
    requires indexed { AreIndexed subjects.old rows.now }
    ensures { AreIndexed subjects.new (take keep rows.now) }
{
    let mut left = rows.len();
    while left > keep {
        subjects.drop_last(&rows[..left]);
        left -= 1;
    }
}
