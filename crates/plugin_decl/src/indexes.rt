ghost use Rattle.std.specs.Prelude.{◌≡◌, ◌≤◌, ◌++◌, length, count_by, map, position, slice_get, is_none, IfOk, OnOk, nat_lt, not, ◌&&◌};
ghost use Rattle.std.specs.List.{list_any};
ghost use Rattle.std.specs.Option.{option_copied, option_and_then};
ghost use Rattle.plugin_decl.specs.Declaration.{ports_in_rows, indexes_of, is_index, ports_of};
ghost use Rattle.plugin_decl.specs.Ports.{index_of};
ghost use Rattle.plugin_decl.specs.Rules.{AreKeptBelow};
ghost use Rattle.plugin_decl.specs.Checks.{AreIndexes, Checked, IsFirstPlace};

use crate::declaration::DeclFault;
use crate::objects::{Found, copy_of, objects};
use crate::plugin::Plugin;
use crate::port::index;
use lv_base::{Items, NoMemory};
use std::alloc::Global;
use triple_store::{Store, Term};
use vocabulary::Word;

/// The most ports: their indexes are from 0 to 255.
pub(crate) const MOST_PORTS: usize = 256;

impl<'a> Plugin<'a> {
    /// The ports in order of index, or the first broken rule on indexes.
    pub(crate) fn ports_by_index(&self, alloc: Global) -> Result<Items<Term>, DeclFault>
        requires { AreKeptBelow self.now.store.now self.now.term.now self.now.block 1 }
        ensures checked { Checked self.now.store.now self.now.term.now self.now.block 4 result }
        ensures ports { IfOk result (λ ports. ports ≡ ports_of self.now.store.now self.now.term.now) }
        ensures few { IfOk result (λ ports. length ports ≤ MOST_PORTS) }
    {
        let ports = self.ports_in_rows(alloc)?;
        self.by_index(alloc, ports.as_slice())
    }

    /// These ports in order of index, or the first broken rule on indexes.
    fn by_index(&self, alloc: Global, ports: &[Term]) -> Result<Items<Term>, DeclFault>
        requires ports { ports.now ≡ ports_in_rows self.now.store.now self.now.term.now }
        requires kept { AreKeptBelow self.now.store.now self.now.term.now self.now.block 1 }
        ensures checked { Checked self.now.store.now self.now.term.now self.now.block 4 result }
        ensures ports { IfOk result (λ ports. ports ≡ ports_of self.now.store.now self.now.term.now) }
        ensures few { IfOk result (λ ports. length ports ≤ MOST_PORTS) }
    {
        let indexes = indexes(alloc, self.store, ports)?;
        self.check_indexes(indexes.as_slice())?;
        Ok(self.in_order(alloc, ports, indexes.as_slice())?)
    }

    /// The rules on indexes, in their order.
    fn check_indexes(&self, indexes: &[Option<u32>]) -> Result<(), DeclFault>
        requires indexes { indexes.now ≡ indexes_of self.now.store.now self.now.term.now }
        requires kept { AreKeptBelow self.now.store.now self.now.term.now self.now.block 1 }
        ensures checked { Checked self.now.store.now self.now.term.now self.now.block 4 result }
        ensures few { OnOk result (length indexes.now ≤ MOST_PORTS) }
    {
        self.check_each_index(indexes)?;
        self.check_distinct(indexes)?;
        self.check_gaps(indexes)
    }

    /// The ports, in order of the triples.
    fn ports_in_rows(&self, alloc: Global) -> Result<Items<Term>, NoMemory>
        ensures { IfOk result (λ ports. ports ≡ ports_in_rows self.now.store.now self.now.term.now) }
    {
        let mut ports = Items::new(alloc);
        push_copies(objects(self.store, self.term, Word::Lv2Port), &mut ports)?;
        Ok(ports)
    }

    fn check_each_index(&self, indexes: &[Option<u32>]) -> Result<(), DeclFault>
        requires indexes { indexes.now ≡ indexes_of self.now.store.now self.now.term.now }
        requires kept { AreKeptBelow self.now.store.now self.now.term.now self.now.block 1 }
        ensures { Checked self.now.store.now self.now.term.now self.now.block 2 result }
    {
        match first_missing(indexes) {
            Some(place) => Err(DeclFault::BadIndex(place)),
            None => Ok(()),
        }
    }

    fn check_distinct(&self, indexes: &[Option<u32>]) -> Result<(), DeclFault>
        requires indexes { indexes.now ≡ indexes_of self.now.store.now self.now.term.now }
        requires kept { AreKeptBelow self.now.store.now self.now.term.now self.now.block 2 }
        ensures { Checked self.now.store.now self.now.term.now self.now.block 3 result }
    {
        match first_repeated(indexes) {
            Some(index) => Err(DeclFault::SameIndex(index)),
            None => Ok(()),
        }
    }

    fn check_gaps(&self, indexes: &[Option<u32>]) -> Result<(), DeclFault>
        requires indexes { indexes.now ≡ indexes_of self.now.store.now self.now.term.now }
        requires kept { AreKeptBelow self.now.store.now self.now.term.now self.now.block 3 }
        ensures checked { Checked self.now.store.now self.now.term.now self.now.block 4 result }
        ensures few { OnOk result (length indexes.now ≤ MOST_PORTS) }
    {
        match first_gap(indexes) {
            Some(index) => Err(DeclFault::Gap(index)),
            None => Ok(()),
        }
    }

    /// The ports in order of index.
    fn in_order(
        &self,
        alloc: Global,
        ports: &[Term],
        indexes: &[Option<u32>],
    ) -> Result<Items<Term>, NoMemory>
        requires ports { ports.now ≡ ports_in_rows self.now.store.now self.now.term.now }
        requires indexes { indexes.now ≡ indexes_of self.now.store.now self.now.term.now }
        requires few { length indexes.now ≤ MOST_PORTS }
        ensures ports { IfOk result (λ ordered. ordered ≡ ports_of self.now.store.now self.now.term.now) }
        ensures few { IfOk result (λ ordered. length ordered ≤ MOST_PORTS) }
    {
        let mut ordered = Items::new(alloc);
        for i in 0..indexes.len() as u32 {
            if let Some(port) = port_at(ports, indexes, i) {
                ordered.push(copy_of(port)?)?;
            }
        }
        Ok(ordered)
    }
}

/// Adds copies of these objects.
fn push_copies(found: Found<'_>, terms: &mut Items<Term>) -> Result<(), NoMemory>
    ensures { OnOk result (terms.new ≡ terms.old ++ found.entry) }
{
    for term in found {
        terms.push(copy_of(term)?)?;
    }
    Ok(())
}

/// The index of each port, where it has one.
fn indexes(alloc: Global, store: &Store, ports: &[Term]) -> Result<Items<Option<u32>>, NoMemory>
    ensures { IfOk result (λ indexes. indexes ≡ map (index_of store.now) ports.now) }
{
    let mut indexes = Items::new(alloc);
    for port in ports {
        indexes.push(index(store, port))?;
    }
    Ok(indexes)
}

fn first_missing(indexes: &[Option<u32>]) -> Option<usize>
    ensures { result ≡ position is_none indexes.now }
{
    indexes.iter().position(|index| index.is_none())
}

/// How often an index stands.
fn count(indexes: &[Option<u32>], i: u32) -> usize
    ensures { result ≡ count_by (is_index i) indexes.now }
{
    indexes.iter().filter(|index| **index == Some(i)).count()
}

/// Whether an index stands.
fn is_there(indexes: &[Option<u32>], i: u32) -> bool
    ensures { result ≡ list_any (is_index i) indexes.now }
{
    indexes.iter().any(|index| *index == Some(i))
}

/// Where an index stands first.
fn place(indexes: &[Option<u32>], i: u32) -> Option<usize>
    ensures { result ≡ position (is_index i) indexes.now }
{
    indexes.iter().position(|index| *index == Some(i))
}

/// The port of an index.
fn port_at<'a>(ports: &'a [Term], indexes: &[Option<u32>], i: u32) -> Option<&'a Term>
    ensures { option_copied result ≡ option_and_then (slice_get ports.now) (position (is_index i) indexes.now) }
{
    ports.get(place(indexes, i)?)
}

/// The least index that stands twice.
fn first_repeated(indexes: &[Option<u32>]) -> Option<u32>
    requires { AreIndexes indexes.now }
    ensures { IsFirstPlace (λ i. nat_lt 1 (count_by (is_index i) indexes.now)) result }
{
    for i in 0..MOST_PORTS as u32 {
        if count(indexes, i) > 1 {
            return Some(i);
        }
    }
    None
}

/// The least index below the number of ports that doesn't stand. No index is above 255, so 256 is the last to look for.
fn first_gap(indexes: &[Option<u32>]) -> Option<u32>
    requires { AreIndexes indexes.now }
    ensures { IsFirstPlace (λ i. nat_lt i (length indexes.now) && not (list_any (is_index i) indexes.now)) result }
{
    for i in 0..indexes.len().min(MOST_PORTS + 1) as u32 {
        if !is_there(indexes, i) {
            return Some(i);
        }
    }
    None
}
