ghost use Rattle.std.specs.Prelude.{◌≡◌, ◌≤◌, IfOk, IfSome, unwrap_or, []};
ghost use Rattle.std.specs.Option.{option_copied, option_and_then};
ghost use Rattle.plugin_decl.specs.Objects.{first, only};
ghost use Rattle.plugin_decl.specs.Ports.{index_of, room_by};
ghost use Rattle.plugin_decl.specs.PortFacts.{two_of, symbol_by, name_by, kind_by, value_by, first_value_by, asked_by, port_by};
ghost use Rattle.plugin_decl.specs.Values.{natural_in};

use crate::declaration::{Port, PortKind};
use crate::first_two::FirstTwo;
use crate::objects::only;
use crate::port_facts::{Bounds, Classes, PortFacts, PortName};
use crate::values::{natural, text, value};
use lv_base::{Fixed, NoMemory, Text};
use std::alloc::Global;
use triple_store::{Store, Term};
use vocabulary::Word;

/// The greatest index of a port.
const MOST_INDEX: u32 = 255;
/// The least bytes of an atom port's buffer.
const LEAST_ROOM: u32 = 4096;
/// The most bytes that an atom port may ask for.
pub(crate) const MOST_ROOM: u32 = 1 << 20;

/// The port's only `lv2:index`, an integer from 0 to `MOST_INDEX`.
#[tactic(auto, unfolding(crate::specs::Ports::index_of))]
pub(crate) fn index(store: &Store, port: &Term) -> Option<u32>
    ensures { result ≡ index_of store.now port.now }
{
    natural(MOST_INDEX, only(store, port, Word::Lv2Index)?)
}

/// The same, of the first two objects.
fn only_index(index: FirstTwo<'_>) -> Option<u32>
    ensures { result ≡ option_and_then (natural_in 255) (only (two_of index.entry)) }
{
    natural(MOST_INDEX, index.only()?)
}

/// The value of the first object.
pub(crate) fn first_value(objects: FirstTwo<'_>) -> Option<Fixed>
    ensures { result ≡ value_by objects.entry }
{
    value(objects.first()?)
}

/// The bytes that the port asks for by the first `rsz:minimumSize`, an integer from 0 to `MOST_ROOM`; 0 where there is none.
fn asked_size(size: FirstTwo<'_>) -> u32
    ensures value { result ≡ asked_by size.entry }
    ensures within { result ≤ MOST_ROOM }
{
    stated_size(size).unwrap_or(0)
}

fn stated_size(size: FirstTwo<'_>) -> Option<u32>
    ensures value { result ≡ option_and_then (natural_in 1048576) (first (two_of size.entry)) }
    ensures within { IfSome result (λ size. size ≤ MOST_ROOM) }
{
    natural(MOST_ROOM, size.first()?)
}

/// The bytes of the port's buffer: at least `LEAST_ROOM`, rounded up to 8.
fn room(kind: PortKind, asked: u32) -> u32
    requires { asked ≤ MOST_ROOM }
    ensures { result ≡ room_by kind asked }
{
    match kind {
        PortKind::Atom => (LEAST_ROOM.max(asked) + 7) / 8 * 8,
        _ => 0,
    }
}

/// A copy of a text, empty where there is none.
pub(crate) fn copy(alloc: Global, text: Option<&Text>) -> Result<Text, NoMemory>
    ensures { IfOk result (λ copy. copy ≡ unwrap_or (option_copied text.entry) []) }
{
    match text {
        Some(text) => Ok(text.clone()?),
        None => Text::from_str(alloc, ""),
    }
}

impl<'a> PortName<'a> {
    /// The first name without a language tag, else the first.
    pub(crate) fn text(&self) -> Option<&'a Text>
        ensures { option_copied result ≡ name_by self.now }
    {
        match self.untagged {
            Some(name) => text(name),
            None => text(self.literal?),
        }
    }
}

impl Classes {
    /// The first of the four classes.
    pub(crate) fn kind(&self) -> PortKind
        ensures { result ≡ kind_by self.now }
    {
        if self.audio {
            PortKind::Audio
        } else if self.cv {
            PortKind::Cv
        } else if self.control {
            PortKind::Control
        } else if self.atom {
            PortKind::Atom
        } else {
            PortKind::Unsupported
        }
    }
}

impl<'a> Bounds<'a> {
    /// The default, else the minimum, else 0.
    fn first_value(&self) -> Fixed
        ensures { result ≡ first_value_by self.now }
    {
        let least = first_value(self.minimum).unwrap_or(Fixed(0));
        first_value(self.default).unwrap_or(least)
    }
}

impl<'a> PortFacts<'a> {
    /// The text of the only `lv2:symbol`.
    pub(crate) fn symbol_text(&self) -> Option<&'a Text>
        ensures { option_copied result ≡ symbol_by self.now }
    {
        text(self.symbol.only()?)
    }

    /// What is declared of the port.
    #[tactic(auto, unfolding(crate::specs::PortFacts::port_by))]
    pub(crate) fn port(&self, alloc: Global) -> Result<Port, NoMemory>
        ensures { IfOk result (λ port. port ≡ port_by self.now) }
    {
        let kind = self.classes.kind();
        Ok(Port {
            index: only_index(self.index).unwrap_or(0),
            symbol: copy(alloc, self.symbol_text())?,
            name: copy(alloc, self.name.text())?,
            input: self.classes.input,
            kind,
            optional: self.uses.optional,
            first: self.bounds.first_value(),
            least: first_value(self.bounds.minimum),
            most: first_value(self.bounds.maximum),
            room: room(kind, asked_size(self.size)),
            control: self.uses.control,
            patch: self.uses.patch,
        })
    }
}
