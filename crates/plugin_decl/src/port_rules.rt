ghost use Rattle.std.specs.Prelude.{◌≡◌, ◌<◌, ◌||◌, ◌&&◌, not, false, IfSome, is_none, length, position};
ghost use Rattle.std.specs.List.{list_all};
ghost use Rattle.std.specs.Option.{option_map_or};
ghost use Rattle.plugin_decl.specs.Checks.{is_broken_in, fault_of};
ghost use Rattle.plugin_decl.specs.PortFacts.{symbol_by, name_by, kind_by, is_lone_value_by, is_lone_size_by, has_values_by, lacks_value, breaches_by};
ghost use Rattle.plugin_decl.specs.PortRules.{is_letter, is_symbol_byte, is_symbol, is_unsupported, is_above};

use crate::breaches::Breaches;
use crate::declaration::{DeclFault, PortKind};
use crate::first_two::FirstTwo;
use crate::port::{MOST_ROOM, first_value};
use crate::port_facts::{Bounds, Classes, PortFacts};
use crate::values::{natural, value};
use lv_base::Fixed;

/// The rules that look at one port alone.
#[derive(Clone, Copy)]
pub enum PortRule {
    /// It has exactly one symbol.
    Symbol,
    /// It has a name.
    Name,
    /// It is an input or an output.
    Direction,
    /// It isn't both.
    OneDirection,
    /// It has a supported class, or may be left unconnected.
    Class,
    /// Its values, or its size, can be read.
    Value,
}

impl PortRule {
    pub(crate) fn is_broken(self, breaches: &Breaches) -> bool
        ensures { result ≡ is_broken_in self breaches.now }
    {
        match self {
            PortRule::Symbol => breaches.symbol,
            PortRule::Name => breaches.name,
            PortRule::Direction => breaches.direction,
            PortRule::OneDirection => breaches.one_direction,
            PortRule::Class => breaches.class,
            PortRule::Value => breaches.value,
        }
    }

    /// What is answered where the port of an index breaks the rule.
    pub(crate) fn fault(self, index: u32) -> DeclFault
        ensures { result ≡ fault_of self index }
    {
        match self {
            PortRule::Symbol => DeclFault::BadSymbol(index),
            PortRule::Name => DeclFault::NoName(index),
            PortRule::Direction => DeclFault::NoDirection(index),
            PortRule::OneDirection => DeclFault::TwoDirections(index),
            PortRule::Class => DeclFault::PortClass(index),
            PortRule::Value => DeclFault::BadValue(index),
        }
    }

    /// The first port that breaks the rule.
    pub(crate) fn first(self, ports: &[Breaches]) -> Option<usize>
        ensures value { result ≡ position (is_broken_in self) ports.now }
        ensures within { IfSome result (λ i. i < length ports.now) }
    {
        ports.iter().position(|port| self.is_broken(port))
    }
}

/// `_` or a letter of ASCII.
fn is_letter(c: u8) -> bool
    ensures { result ≡ is_letter c }
{
    matches!(c, b'_' | b'A'..=b'Z' | b'a'..=b'z')
}

fn is_symbol_byte(c: u8) -> bool
    ensures { result ≡ is_symbol_byte c }
{
    is_letter(c) || c.is_ascii_digit()
}

fn are_symbol_bytes(text: &[u8]) -> bool
    ensures { result ≡ list_all is_symbol_byte text.now }
{
    text.iter().all(|c| is_symbol_byte(*c))
}

/// A letter, and then letters and digits.
fn is_symbol(text: &[u8]) -> bool
    ensures { result ≡ is_symbol text.now }
{
    match text {
        [first, rest @ ..] => is_letter(*first) && are_symbol_bytes(rest),
        [] => false,
    }
}

fn is_unsupported(kind: PortKind) -> bool
    ensures { result ≡ is_unsupported kind }
{
    matches!(kind, PortKind::Unsupported)
}

/// There is at most one value, and it can be read.
fn is_lone_value(objects: FirstTwo<'_>) -> bool
    ensures { result ≡ is_lone_value_by objects.entry }
{
    match objects {
        FirstTwo::Neither => true,
        FirstTwo::One(object) => value(object).is_some(),
        FirstTwo::Both(_, _) => false,
    }
}

/// There is at most one size, an integer from 0 to `MOST_ROOM`.
fn is_lone_size(objects: FirstTwo<'_>) -> bool
    ensures { result ≡ is_lone_size_by objects.entry }
{
    match objects {
        FirstTwo::Neither => true,
        FirstTwo::One(object) => natural(MOST_ROOM, object).is_some(),
        FirstTwo::Both(_, _) => false,
    }
}

fn is_above(least: Option<Fixed>, most: Option<Fixed>) -> bool
    ensures { result ≡ is_above least most }
{
    match (least, most) {
        (Some(least), Some(most)) => least.0 > most.0,
        _ => false,
    }
}

impl<'a> Bounds<'a> {
    /// The values of a control port can be read, and its minimum isn't above its maximum.
    fn are_values(&self) -> bool
        ensures { result ≡ has_values_by self.now }
    {
        is_lone_value(self.default)
            && is_lone_value(self.minimum)
            && is_lone_value(self.maximum)
            && !is_above(first_value(self.minimum), first_value(self.maximum))
    }
}

impl<'a> PortFacts<'a> {
    /// It hasn't exactly one `lv2:symbol`, or that is no symbol.
    fn lacks_symbol(&self) -> bool
        ensures { result ≡ not (option_map_or is_symbol (symbol_by self.now) false) }
    {
        match self.symbol_text() {
            Some(text) => !is_symbol(text.as_bytes()),
            None => true,
        }
    }

    /// A control port is judged by its values, an atom port by its size.
    fn lacks_value(&self, kind: PortKind) -> bool
        ensures { result ≡ lacks_value kind self.now }
    {
        match kind {
            PortKind::Control => !self.bounds.are_values(),
            PortKind::Atom => !is_lone_size(self.size),
            _ => false,
        }
    }

    /// Which rules on one port alone it breaks.
    #[tactic(auto, unfolding(crate::specs::PortFacts::breaches_by))]
    pub(crate) fn breaches(&self) -> Breaches
        ensures { result ≡ breaches_by self.now }
    {
        let kind = self.classes.kind();
        Breaches {
            symbol: self.lacks_symbol(),
            name: self.name.text().is_none(),
            direction: !(self.classes.input || self.classes.output),
            one_direction: self.classes.input && self.classes.output,
            class: is_unsupported(kind) && !self.uses.optional,
            value: self.lacks_value(kind),
        }
    }
}
