ghost use Rattle.std.specs.Prelude.{◌≡◌, ◌↔◌, ◌<◌, ◌≤◌, ◌+◌, ◌^◌, [], length, map, true, false, if◌then◌else◌, IsTrue, IfSome, IfOk, OnOk, OnErr, IsErrOf, Ok, Some, None};
ghost use Rattle.std.specs.List.{list_all};
ghost use Rattle.std.specs.Option.{option_copied};
ghost use Rattle.iri_resolve.specs.Iri as iri;
ghost use Rattle.urid_map.specs.Numbers.{holds, number_of, with_uri, with_uris, uri_of, AreNumbered, AreKept};
ghost use Rattle.urid_map.specs.Table.{initial};
ghost use Rattle.vocabulary.specs.Words.{iri_of};

use crate::UridFault;
use crate::table::INITIAL;
use indexmap::IndexSet;
use lv_base::{NoMemory, Text};
use seeded_hash::SeededHash;
use std::alloc::Global;
use std::marker::Model;
use vocabulary::Word;

/// The most URIs that have numbers: 2^20.
pub const MOST_URIDS: usize = 1 << 20;

/// The URIs that have numbers, from 1 on in the order in which they were mapped. Contracts see the list of them, each of which
/// stands there once.
///
/// URIs are looked up by hashes: SipHash-1-3, whose key is a seed of 128 bits. The numbers don't depend on this seed, the
/// time does. Whoever knows it can write URIs whose hashes agree, and each is compared with all that agree with it, so that n of
/// them take time in n². A program that maps strangers' URIs takes a random seed, by `with_seed`.
#[derive(Drop)]
pub struct Urids {
    uris: IndexSet<Text, SeededHash>,
}

impl Model for Urids {
    ghost use Rattle.std.specs.Prelude.{◌≡◌, ◌≤◌, ◌^◌, true, ℕ, List, length};
    ghost use Rattle.std.specs.List.{list_all};
    ghost use Rattle.iri_resolve.specs.Iri.{is_iri_text};

    ghost Value = { List (List ℕ) };

    ghost view = { λ urids. urids.uris.keys };

    ghost invariant = { λ urids. (length urids.uris.keys ≤ 2 ^ 20) × (list_all is_iri_text urids.uris.keys ≡ true) };
}

impl Urids {
    /// The URIs that each host of this kind knows, with the numbers 1 to 25, and a seed of 0: for URIs that come from whom one
    /// trusts.
    pub fn new(alloc: Global) -> Result<Self, NoMemory>
        ensures { IfOk result (λ urids. urids ≡ initial) }
    {
        Urids::with_seed(alloc, 0)
    }

    /// The same, with a seed for its hashes.
    #[tactic(auto, unfolding(turtle_grammar::specs::Characters::is_excluded, vocabulary::specs::Words::iri_of))]
    pub fn with_seed(alloc: Global, seed: u128) -> Result<Self, NoMemory>
        ensures { IfOk result (λ urids. urids ≡ initial) }
    {
        let mut urids = Urids::empty(alloc, seed);
        urids.insert_all(alloc, &INITIAL)?;
        Ok(urids)
    }

    fn empty(alloc: Global, seed: u128) -> Self
        ensures { result ≡ [] }
    {
        Urids {
            uris: IndexSet::with_hasher(alloc, SeededHash::new(seed)),
        }
    }

    /// The number of a URI, which is an IRI in full (`is_iri_text`): its own where it has one, else the next. It takes no memory
    /// where the URI has a number. It hashes the URI once, twice where it is new; the time doesn't grow with the URIs.
    ///
    /// `Full` comes exactly where the URI is new and there are `MOST_URIDS` numbers. A refusal leaves all as before.
    pub fn map(&mut self, uri: &Text) -> Result<u32, UridFault>
        requires { IsTrue (iri.is_iri_text uri.now) }
        ensures number { IfOk result (λ number. number ≡ number_of self.new uri.now) }
        ensures urids { OnOk result (self.new ≡ with_uri self.old uri.now) }
        ensures held { IsTrue (holds self.old uri.now) → result ≡ Ok (number_of self.old uri.now) }
        ensures full { IsErrOf result UridFault.Full ↔ ((length self.old ≡ 2 ^ 20) × (holds self.old uri.now ≡ false)) }
        ensures err { OnErr result (self.new ≡ self.old) }
    {
        if let Some(place) = self.uris.get_index_of(uri) {
            return Ok(place as u32 + 1);
        }
        if self.uris.len() == MOST_URIDS {
            return Err(UridFault::Full);
        }
        Ok(self.insert(uri)?)
    }

    // Maps the IRI of each of these words in turn.
    fn insert_all(&mut self, alloc: Global, words: &[Word]) -> Result<(), NoMemory>
        requires iri { list_all (λ word. iri.is_iri_text (iri_of word)) words.now ≡ true }
        requires room { length self.old + length words.now ≤ 2 ^ 20 }
        ensures { OnOk result (self.new ≡ with_uris self.old (map iri_of words.now)) }
    {
        for word in words {
            self.insert(&Text::from_str(alloc, word.iri())?)?;
        }
        Ok(())
    }

    // `map` where there is room.
    fn insert(&mut self, uri: &Text) -> Result<u32, NoMemory>
        requires iri { IsTrue (iri.is_iri_text uri.now) }
        requires room { length self.old < 2 ^ 20 }
        ensures number { IfOk result (λ number. number ≡ number_of self.new uri.now) }
        ensures urids { OnOk result (self.new ≡ with_uri self.old uri.now) }
        ensures err { OnErr result (self.new ≡ self.old) }
    {
        let (place, _) = self.uris.insert_full(uri.clone()?)?;
        Ok(place as u32 + 1)
    }

    /// The number of a URI, `None` exactly where it has none. It takes no memory.
    pub fn number(&self, uri: &Text) -> Option<u32>
        ensures value { result ≡ (if holds self.now uri.now then Some (number_of self.now uri.now) else None) }
        ensures held { IfSome result (λ number. number ≤ length self.now) }
    {
        let place = self.uris.get_index_of(uri)?;
        Some(place as u32 + 1)
    }

    /// The URI with this number, `None` exactly for 0 and for numbers that no URI has. It takes no memory.
    pub fn unmap(&self, number: u32) -> Option<&Text>
        ensures uri { option_copied result ≡ uri_of self.now number }
        ensures iri { IfSome result (λ uri. IsTrue (iri.is_iri_text uri.now)) }
    {
        let place = (number as usize).checked_sub(1)?;
        self.uris.get_index(place)
    }

    /// How many URIs have numbers.
    pub fn held(&self) -> u32
        ensures value { result ≡ length self.now }
        ensures few { result ≤ 2 ^ 20 }
    {
        self.uris.len() as u32
    }

    /// A law, with nothing to find out: a URI has one number, which it keeps, and a number one URI.
    pub fn one_number(&self)
        ensures numbered { AreNumbered self.now }
        ensures kept { AreKept self.now }
    {
        self.uris.len();
    }
}
