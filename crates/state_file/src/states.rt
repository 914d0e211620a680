ghost use Rattle.std.specs.Prelude.{◌≡◌, Some};
ghost use Rattle.std.specs.Iterator.{YieldsFirstRef, item_count};
ghost use Rattle.std.specs.Option.{option_copied};
ghost use Rattle.state_file.specs.States.{is_saved, states_in, name_in, uri_in, node_in, about};

use crate::objects::{Kind, iri, names, one, text};
use lv_base::Text;
use std::marker::Model;
use triple_store::{Matching, Store, Term, Triple};
use vocabulary::Word;

/// The states that are left to go through. Contracts see the list of them.
#[derive(Drop)]
pub struct StatesLeft<'a> {
    rows: Matching<'a>,
}

impl<'a> Model for StatesLeft<'a> {
    ghost use Rattle.std.specs.Prelude.{List};
    ghost use Rattle.state_file.specs.States.{states_in};
    ghost use Rattle.triple_store.specs.declared.term.Term.{Term};

    ghost Value = { List Term };

    ghost view = { λ states. states_in states.rows };
}

fn is_saved(row: &Triple) -> bool
    ensures { result ≡ is_saved row.now }
{
    names(Word::RdfType, &row.p) && names(Word::FxSaved, &row.o)
}

impl<'a> Iterator for StatesLeft<'a> {
    type Item = &'a Term;

    ghost next_gives = { YieldsFirstRef (λ left. left) };

    ghost remaining = { item_count (λ left. left) };

    fn next(&mut self) -> Option<&'a Term> {
        while let Some(row) = self.rows.next() {
            if is_saved(row) {
                return Some(&row.s);
            }
        }
        None
    }
}

/// The subjects of class fx:Saved, in order of the store.
pub(crate) fn states<'a>(store: &'a Store) -> StatesLeft<'a>
    ensures { result ≡ states_in store.now }
{
    StatesLeft {
        rows: store.matching(None, None, None),
    }
}

/// The name of the instance whose state it is.
#[tactic(auto, unfolding(crate::specs::States::name_in))]
pub(crate) fn name<'a>(store: &'a Store, state: &'a Term) -> Option<&'a Text>
    ensures { option_copied result ≡ name_in store.now state.now }
{
    text(one(store, state, Word::FxName, Kind::OneLiteral)?)
}

/// The URI of its plug-in.
#[tactic(auto, unfolding(crate::specs::States::uri_in))]
pub(crate) fn uri<'a>(store: &'a Store, state: &'a Term) -> Option<&'a Text>
    ensures { option_copied result ≡ uri_in store.now state.now }
{
    iri(one(store, state, Word::FxPlugin, Kind::OneIri)?)
}

/// The node whose triples are its properties.
#[tactic(auto, unfolding(crate::specs::States::node_in))]
pub(crate) fn node<'a>(store: &'a Store, state: &'a Term) -> Option<&'a Term>
    ensures { option_copied result ≡ node_in store.now state.now }
{
    one(store, state, Word::StateState, Kind::OneNode)
}

/// Every triple of a node, which are the properties that it says.
pub(crate) fn properties<'a>(store: &'a Store, node: &'a Term) -> Matching<'a>
    ensures { result ≡ about store.now (Some node.now) }
{
    store.matching(Some(node), None, None)
}
