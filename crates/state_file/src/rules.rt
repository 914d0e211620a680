ghost use Rattle.std.specs.Prelude.{◌≡◌, ◌++◌, ◌∷◌, [], ◌&&◌, not, map, length, unwrap_or, is_some, IfOk, IfErr, IsTrue, OnOk, None, Some};
ghost use Rattle.std.specs.List.{list_all, list_any};
ghost use Rattle.triple_store.specs.Triples.{same_term};
ghost use Rattle.triple_store.specs.declared.term.Triple.{Triple};
ghost use Rattle.state_file.specs.States.{about, states_in, name_in, uri_in, bytes_in};
ghost use Rattle.state_file.specs.Rules.{is_property, each_once, are_properties, is_shaped, has_flags, has_bytes, are_few, has_few, first_broken, IsVerdict};

use crate::StateFault;
use crate::property::{bytes, bytes_term, flags, flags_term, key, kind};
use crate::states::{name, node, properties, states, uri};
use indexmap::IndexSet;
use lv_base::NoMemory;
use seeded_hash::SeededHash;
use state_store::{MOST_BYTES, MOST_PROPERTIES};
use std::alloc::Global;
use triple_store::{Store, Term, Triple};

/// Whether a property has its parts.
#[tactic(auto, unfolding(crate::specs::Rules::is_property))]
fn is_property(store: &Store, property: &Triple) -> bool
    ensures { result ≡ is_property store.now property.now }
{
    (key(property).is_some() && kind(store, property).is_some())
        && (flags_term(store, property).is_some() && bytes_term(store, property).is_some())
}

/// Adds a key, unless it is there.
fn add(keys: &mut IndexSet<Term, SeededHash>, key: &Term) -> Result<bool, NoMemory>
    ensures new { IfOk result (λ is_new. is_new ≡ not (list_any (same_term key.now) keys.old.keys)) }
    ensures added { IfOk result (λ is_new. IsTrue is_new → keys.new.keys ≡ keys.old.keys ++ key.now ∷ []) }
{
    let (_, is_new) = keys.insert_full(key.clone()?)?;
    Ok(is_new)
}

/// Whether no key stands twice among the properties of a node.
#[tactic(auto, using(crate::proofs::Keys::new_from_none))]
fn each_once(alloc: Global, store: &Store, node: &Term) -> Result<bool, NoMemory>
    ensures { IfOk result (λ once. once ≡ each_once (map (λ (property : Triple). property.p) (about store.now (Some node.now)))) }
{
    let mut keys = IndexSet::with_hasher(alloc, store.hashing());
    for property in properties(store, node) {
        if !add(&mut keys, &property.p)? {
            return Ok(false);
        }
    }
    Ok(true)
}

fn all_have_parts(store: &Store, node: &Term) -> bool
    ensures { result ≡ list_all (is_property store.now) (about store.now (Some node.now)) }
{
    properties(store, node).all(|property| is_property(store, property))
}

fn are_properties(alloc: Global, store: &Store, node: &Term) -> Result<bool, NoMemory>
    ensures { IfOk result (λ are. are ≡ are_properties store.now (about store.now (Some node.now))) }
{
    if !all_have_parts(store, node) {
        return Ok(false);
    }
    each_once(alloc, store, node)
}

fn has_parts(store: &Store, state: &Term) -> bool
    ensures { result ≡ (is_some (name_in store.now state.now) && is_some (uri_in store.now state.now)) }
{
    name(store, state).is_some() && uri(store, state).is_some()
}

/// Whether a state and its properties have their parts.
#[tactic(auto, unfolding(crate::specs::Rules::is_shaped, crate::specs::States::properties_in))]
fn is_shaped(alloc: Global, store: &Store, state: &Term) -> Result<bool, NoMemory>
    ensures { IfOk result (λ shaped. shaped ≡ is_shaped store.now state.now) }
{
    if !has_parts(store, state) {
        return Ok(false);
    }
    match node(store, state) {
        None => Ok(false),
        Some(node) => are_properties(alloc, store, node),
    }
}

fn are_shaped(alloc: Global, store: &Store) -> Result<bool, NoMemory>
    ensures { IfOk result (λ shaped. shaped ≡ list_all (is_shaped store.now) (states_in store.now)) }
{
    for state in states(store) {
        if !is_shaped(alloc, store, state)? {
            return Ok(false);
        }
    }
    Ok(true)
}

/// Whether all flags of a state are 3 or 7.
#[tactic(auto, unfolding(crate::specs::Rules::has_flags, crate::specs::States::properties_in))]
fn has_flags(store: &Store, state: &Term) -> bool
    ensures { result ≡ has_flags store.now state.now }
{
    match node(store, state) {
        None => true,
        Some(node) => properties(store, node).all(|property| flags(store, property).is_some()),
    }
}

fn have_flags(store: &Store) -> bool
    ensures { result ≡ list_all (has_flags store.now) (states_in store.now) }
{
    states(store).all(|state| has_flags(store, state))
}

/// Whether all bytes of a node's properties are canonical base64.
fn are_encoded(alloc: Global, store: &Store, node: &Term) -> Result<bool, NoMemory>
    ensures { IfOk result (λ encoded. encoded ≡ list_all (λ property. is_some (bytes_in store.now property)) (about store.now (Some node.now))) }
{
    for property in properties(store, node) {
        if bytes(alloc, store, property)?.is_none() {
            return Ok(false);
        }
    }
    Ok(true)
}

#[tactic(auto, unfolding(crate::specs::Rules::has_bytes, crate::specs::States::properties_in))]
fn has_bytes(alloc: Global, store: &Store, state: &Term) -> Result<bool, NoMemory>
    ensures { IfOk result (λ has. has ≡ has_bytes store.now state.now) }
{
    match node(store, state) {
        None => Ok(true),
        Some(node) => are_encoded(alloc, store, node),
    }
}

fn have_bytes(alloc: Global, store: &Store) -> Result<bool, NoMemory>
    ensures { IfOk result (λ have. have ≡ list_all (has_bytes store.now) (states_in store.now)) }
{
    for state in states(store) {
        if !has_bytes(alloc, store, state)? {
            return Ok(false);
        }
    }
    Ok(true)
}

/// How many bytes a property has, none where they aren't canonical base64.
fn size(alloc: Global, store: &Store, property: &Triple) -> Result<usize, NoMemory>
    ensures { IfOk result (λ size. size ≡ length (unwrap_or (bytes_in store.now property.now) [])) }
{
    match bytes(alloc, store, property)? {
        None => Ok(0),
        Some(bytes) => Ok(bytes.len()),
    }
}

/// Whether there is room for the properties of a node.
fn are_few(alloc: Global, store: &Store, node: &Term) -> Result<bool, NoMemory>
    ensures { IfOk result (λ few. few ≡ are_few store.now (about store.now (Some node.now))) }
{
    let mut properties_left = MOST_PROPERTIES;
    let mut bytes_left = MOST_BYTES;
    for property in properties(store, node) {
        let size = size(alloc, store, property)?;
        if properties_left == 0 || bytes_left < size {
            return Ok(false);
        }
        properties_left -= 1;
        bytes_left -= size;
    }
    Ok(true)
}

#[tactic(auto, unfolding(crate::specs::Rules::has_few, crate::specs::States::properties_in))]
fn has_few(alloc: Global, store: &Store, state: &Term) -> Result<bool, NoMemory>
    ensures { IfOk result (λ few. few ≡ has_few store.now state.now) }
{
    match node(store, state) {
        None => Ok(true),
        Some(node) => are_few(alloc, store, node),
    }
}

fn have_few(alloc: Global, store: &Store) -> Result<bool, NoMemory>
    ensures { IfOk result (λ few. few ≡ list_all (has_few store.now) (states_in store.now)) }
{
    for state in states(store) {
        if !has_few(alloc, store, state)? {
            return Ok(false);
        }
    }
    Ok(true)
}

/// Judges the states by each rule in turn.
#[tactic(auto, unfolding(crate::specs::Rules::first_broken))]
pub(crate) fn judge(alloc: Global, store: &Store) -> Result<(), StateFault>
    ensures ok { OnOk result (first_broken store.now ≡ None) }
    ensures err { IfErr result (IsVerdict store.now) }
{
    if !are_shaped(alloc, store)? {
        return Err(StateFault::Shape);
    }
    if !have_flags(store) {
        return Err(StateFault::Flags);
    }
    if !have_bytes(alloc, store)? {
        return Err(StateFault::Bytes);
    }
    if !have_few(alloc, store)? {
        return Err(StateFault::Size);
    }
    Ok(())
}
