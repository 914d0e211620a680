ghost use Rattle.std.specs.Prelude.{◌≡◌, ◌∷◌, ◌++◌, [], length, map, option_to_list, unwrap_or, IfOk, IfErr, IfSome, IsTrue, OnOk, None, Some, true};
ghost use Rattle.std.specs.Option.{option_copied};
ghost use Rattle.iri_resolve.specs.Iri.{is_iri_text};
ghost use Rattle.state_store.specs.Properties.{with_property, is_mapped, are_flags, fit};
ghost use Rattle.urid_map.specs.Numbers.{holds, number_of, with_uris};
ghost use Rattle.state_file.specs.States.{about, states_in, properties_in, key_in, kind_in};
ghost use Rattle.state_file.specs.Rules.{first_broken, uris_of, uris_for, uris_in, IsCause, AreMappedInPart};
ghost use Rattle.state_file.specs.Reading.{key_number, prop_of, stored, saved_of, saves_of};
ghost use Rattle.state_file.specs.Ready.{IsHeld, IsReady, AreReady, HaveRoom, AreReadable, IsStopped};

use crate::property::{bytes, flags, key, kind};
use crate::rules::judge;
use crate::states::{name, node, properties, states, uri};
use crate::{Saved, StateFault};
use lv_base::{NoMemory, Text};
use state_store::{Props, Shelf};
use std::alloc::Global;
use triple_store::{Store, Term, Triple};
use urid_map::{UridFault, Urids};

/// The states of a file, whose triples these are: the subjects of class fx:Saved, in order of the store. Keys and types get numbers,
/// in order of the states and of their triples, of each the key and then the type.
///
/// `Shape`, `Flags`, `Bytes` and `Size` come exactly for the first rule that a state breaks, each rule going through all states
/// before the next. Then the URIs are as before. `UridFull` comes exactly where no rule is broken, and a key or a type is new where
/// there are `MOST_URIDS` numbers. After it and `NoMemory` the first of the URIs may be mapped.
#[tactic(auto, using(crate::proofs::Readiness::can_read, crate::proofs::Mapping::part_stopped, crate::proofs::Mapping::part_none, crate::proofs::Mapping::part_all, crate::proofs::Causes::verdict_passed, crate::proofs::Causes::stop_passed, crate::proofs::Causes::memory_passed, crate::proofs::Causes::same_where_kept))]
pub fn read(alloc: Global, store: &Store, urids: &mut Urids) -> Result<Vec<Saved>, StateFault>
    ensures states { IfOk result (λ saves. saves.items ≡ saves_of store.now urids.new) }
    ensures urids { OnOk result (urids.new ≡ with_uris urids.old (uris_in store.now)) }
    ensures kept { OnOk result (first_broken store.now ≡ None) }
    ensures cause { IfErr result (λ fault. IsCause store.now urids.old fault) }
    ensures same { IfSome (first_broken store.now) (λ _. urids.new ≡ urids.old) }
    ensures part { AreMappedInPart urids.old (uris_in store.now) urids.new }
{
    judge(alloc, store)?;
    map_all(store, urids)?;
    Ok(saves(alloc, store, urids)?)
}

fn map_uri(uri: &Text, urids: &mut Urids) -> Result<(), UridFault>
    requires { IsTrue (is_iri_text uri.now) }
    ensures ok { OnOk result (urids.new ≡ with_uris urids.old (uri.now ∷ [])) }
    ensures err { IfErr result (λ fault. IsStopped urids.old (uri.now ∷ []) fault urids.new) }
{
    urids.map(uri)?;
    Ok(())
}

/// Maps a URI, if there is one.
#[tactic(auto, using(crate::proofs::Held::mapped_none))]
fn map_one(uri: Option<&Text>, urids: &mut Urids) -> Result<(), UridFault>
    requires { IfSome uri (λ uri. IsTrue (is_iri_text uri.now)) }
    ensures ok { OnOk result (urids.new ≡ with_uris urids.old (option_to_list (option_copied uri.entry))) }
    ensures err { IfErr result (λ fault. IsStopped urids.old (option_to_list (option_copied uri.entry)) fault urids.new) }
{
    match uri {
        None => Ok(()),
        Some(uri) => map_uri(uri, urids),
    }
}

/// Maps the URIs of a property.
fn map_property(store: &Store, property: &Triple, urids: &mut Urids) -> Result<(), UridFault>
    ensures ok { OnOk result (urids.new ≡ with_uris urids.old (option_to_list (key_in property.now) ++ option_to_list (kind_in store.now property.now))) }
    ensures err { IfErr result (λ fault. IsStopped urids.old (option_to_list (key_in property.now) ++ option_to_list (kind_in store.now property.now)) fault urids.new) }
{
    map_one(key(property), urids)?;
    map_one(kind(store, property), urids)
}

fn map_node(store: &Store, node: &Term, urids: &mut Urids) -> Result<(), UridFault>
    ensures ok { OnOk result (urids.new ≡ with_uris urids.old (uris_of store.now (about store.now (Some node.now)))) }
    ensures err { IfErr result (λ fault. IsStopped urids.old (uris_of store.now (about store.now (Some node.now))) fault urids.new) }
{
    for property in properties(store, node) {
        map_property(store, property, urids)?;
    }
    Ok(())
}

/// Maps the URIs of a state.
#[tactic(auto, unfolding(crate::specs::States::properties_in))]
fn map_state(store: &Store, state: &Term, urids: &mut Urids) -> Result<(), UridFault>
    ensures ok { OnOk result (urids.new ≡ with_uris urids.old (uris_of store.now (properties_in store.now state.now))) }
    ensures err { IfErr result (λ fault. IsStopped urids.old (uris_of store.now (properties_in store.now state.now)) fault urids.new) }
{
    match node(store, state) {
        None => Ok(()),
        Some(node) => map_node(store, node, urids),
    }
}

/// Maps the URIs of all states.
#[tactic(auto, unfolding(crate::specs::Rules::uris_in))]
fn map_all(store: &Store, urids: &mut Urids) -> Result<(), UridFault>
    ensures ok { OnOk result (urids.new ≡ with_uris urids.old (uris_in store.now)) }
    ensures err { IfErr result (λ fault. IsStopped urids.old (uris_in store.now) fault urids.new) }
{
    for state in states(store) {
        map_state(store, state, urids)?;
    }
    Ok(())
}

/// The number of a URI that has one.
fn number_of(urids: &Urids, uri: &Text) -> u32
    requires { IsTrue (holds urids.now uri.now) }
    ensures value { result ≡ number_of urids.now uri.now }
    ensures mapped { is_mapped (length urids.now) result ≡ true }
{
    match urids.number(uri) {
        Some(number) => number,
        None => unreachable!(),
    }
}

/// The number of a URI that is there and has one.
fn number(urids: &Urids, uri: Option<&Text>) -> u32
    requires { IsHeld urids.now (option_copied uri) }
    ensures value { result ≡ number_of urids.now (unwrap_or (option_copied uri.entry) []) }
    ensures mapped { is_mapped (length urids.now) result ≡ true }
{
    match uri {
        Some(uri) => number_of(urids, uri),
        None => unreachable!(),
    }
}

/// Stores a property.
fn store_property(
    alloc: Global,
    store: &Store,
    property: &Triple,
    urids: &Urids,
    shelf: &mut Shelf,
) -> Result<(), NoMemory>
    requires ready { IsReady store.now urids.now property.now }
    requires mapped { shelf.old.mapped ≡ length urids.now }
    requires room { fit (with_property shelf.old.rows (key_number urids.now property.now) (prop_of store.now urids.now property.now)) ≡ true }
    ensures mapped { shelf.new.mapped ≡ shelf.old.mapped }
    ensures rows { OnOk result (shelf.new.rows ≡ with_property shelf.old.rows (key_number urids.now property.now) (prop_of store.now urids.now property.now)) }
{
    let key = number(urids, key(property));
    let kind = number(urids, kind(store, property));
    let flags = flags(store, property).unwrap_or(0);
    match bytes(alloc, store, property)? {
        Some(bytes) => shelf.store(key, kind, flags, bytes.as_slice()),
        None => shelf.store(key, kind, flags, &[]),
    };
    Ok(())
}

fn store_all(
    alloc: Global,
    store: &Store,
    node: &Term,
    urids: &Urids,
    shelf: &mut Shelf,
) -> Result<(), NoMemory>
    requires ready { AreReady store.now urids.now (about store.now (Some node.now)) }
    requires room { HaveRoom store.now shelf.old.rows (about store.now (Some node.now)) }
    requires mapped { shelf.old.mapped ≡ length urids.now }
    ensures { OnOk result (shelf.new.rows ≡ stored store.now urids.now shelf.old.rows (about store.now (Some node.now))) }
{
    for property in properties(store, node) {
        store_property(alloc, store, property, urids, shelf)?;
    }
    Ok(())
}

/// Stores the properties of a state.
#[tactic(auto, unfolding(crate::specs::States::properties_in))]
fn store_state(
    alloc: Global,
    store: &Store,
    state: &Term,
    urids: &Urids,
    shelf: &mut Shelf,
) -> Result<(), NoMemory>
    requires ready { AreReady store.now urids.now (properties_in store.now state.now) }
    requires room { HaveRoom store.now shelf.old.rows (properties_in store.now state.now) }
    requires mapped { shelf.old.mapped ≡ length urids.now }
    ensures { OnOk result (shelf.new.rows ≡ stored store.now urids.now shelf.old.rows (properties_in store.now state.now)) }
{
    match node(store, state) {
        None => Ok(()),
        Some(node) => store_all(alloc, store, node, urids, shelf),
    }
}

/// The properties of a state.
fn props(alloc: Global, store: &Store, state: &Term, urids: &Urids) -> Result<Props, NoMemory>
    requires ready { AreReady store.now urids.now (properties_in store.now state.now) }
    requires room { HaveRoom store.now [] (properties_in store.now state.now) }
    ensures { IfOk result (λ props. props ≡ stored store.now urids.now [] (properties_in store.now state.now)) }
{
    let mut shelf = Shelf::with_room(alloc, urids.held())?;
    store_state(alloc, store, state, urids, &mut shelf)?;
    shelf.finish()
}

/// A copy of a text, the empty text where there is none.
fn copy(alloc: Global, text: Option<&Text>) -> Result<Text, NoMemory>
    ensures { IfOk result (λ copy. copy ≡ unwrap_or (option_copied text.entry) []) }
{
    match text {
        Some(text) => Ok(text.clone()?),
        None => Text::from_str(alloc, ""),
    }
}

#[tactic(auto, unfolding(crate::specs::Reading::saved_of))]
fn saved(alloc: Global, store: &Store, state: &Term, urids: &Urids) -> Result<Saved, NoMemory>
    requires ready { AreReady store.now urids.now (properties_in store.now state.now) }
    requires room { HaveRoom store.now [] (properties_in store.now state.now) }
    ensures { IfOk result (λ saved. saved ≡ saved_of store.now urids.now state.now) }
{
    let name = copy(alloc, name(store, state))?;
    let uri = copy(alloc, uri(store, state))?;
    let props = props(alloc, store, state, urids)?;
    Ok(Saved { name, uri, props })
}

fn push_all(
    alloc: Global,
    store: &Store,
    urids: &Urids,
    saves: &mut Vec<Saved>,
) -> Result<(), NoMemory>
    requires { AreReadable store.now urids.now (states_in store.now) }
    ensures { OnOk result (saves.new.items ≡ saves.old.items ++ map (saved_of store.now urids.now) (states_in store.now)) }
{
    for state in states(store) {
        saves.reserve(1)?;
        let saved = saved(alloc, store, state, urids)?;
        saves.push_reserved(saved);
    }
    Ok(())
}

/// All states.
#[tactic(auto, unfolding(crate::specs::Reading::saves_of))]
fn saves(alloc: Global, store: &Store, urids: &Urids) -> Result<Vec<Saved>, NoMemory>
    requires { AreReadable store.now urids.now (states_in store.now) }
    ensures { IfOk result (λ saves. saves.items ≡ saves_of store.now urids.now) }
{
    let mut saves = Vec::new(alloc);
    push_all(alloc, store, urids, &mut saves)?;
    Ok(saves)
}
