ghost use Rattle.std.specs.Prelude.{◌≡◌, ◌+◌, ◌<◌, ◌≤◌, IfSome, length, map};
ghost use Rattle.std.specs.List.{list_any};
ghost use Rattle.plugin_decl.specs.Declaration.{ports_of, declared_ports};
ghost use Rattle.plugin_decl.specs.PortFacts.{breaches_of};
ghost use Rattle.plugin_decl.specs.Rules.{number, has_symbol_of, repeats_symbol, AreKeptBelow};
ghost use Rattle.plugin_decl.specs.Checks.{Checked, IsFirstPlace, rule_of};

use crate::breaches::Breaches;
use crate::declaration::{DeclFault, Port};
use crate::indexes::MOST_PORTS;
use crate::objects::is_a;
use crate::plugin::Plugin;
use crate::port_rules::PortRule;
use vocabulary::Word;

/// Whether one of some ports has the symbol of another.
fn is_symbol_of(port: &Port, ports: &[Port]) -> bool
    ensures { result ≡ list_any (has_symbol_of port.now) ports.now }
{
    ports
        .iter()
        .any(|other| other.symbol.as_str() == port.symbol.as_str())
}

/// The first port that has the symbol of one before it.
fn first_same_symbol(ports: &[Port]) -> Option<usize>
    ensures first { IsFirstPlace (repeats_symbol ports.now) result }
    ensures within { IfSome result (λ i. i < length ports.now) }
{
    for (i, port) in ports.iter().enumerate() {
        if is_symbol_of(port, &ports[..i]) {
            return Some(i);
        }
    }
    None
}

impl<'a> Plugin<'a> {
    pub(crate) fn check_class(&self) -> Result<(), DeclFault>
        ensures { Checked self.now.store.now self.now.term.now self.now.block 1 result }
    {
        if is_a(self.store, self.term, Word::Lv2Plugin) {
            Ok(())
        } else {
            Err(DeclFault::NoPlugin)
        }
    }

    /// The rules on one port alone but that on values, and the one on two symbols, in their order.
    pub(crate) fn check_ports(&self, breaches: &[Breaches], ports: &[Port]) -> Result<(), DeclFault>
        requires breaches { breaches.now ≡ map (breaches_of self.now.store.now) (ports_of self.now.store.now self.now.term.now) }
        requires ports { ports.now ≡ declared_ports self.now.store.now self.now.term.now }
        requires few { length breaches.now ≤ MOST_PORTS }
        requires few_ports { length ports.now ≤ MOST_PORTS }
        requires kept { AreKeptBelow self.now.store.now self.now.term.now self.now.block 4 }
        ensures { Checked self.now.store.now self.now.term.now self.now.block 10 result }
    {
        self.check(PortRule::Symbol, breaches)?;
        self.check_same_symbol(ports)?;
        self.check(PortRule::Name, breaches)?;
        self.check(PortRule::Direction, breaches)?;
        self.check(PortRule::OneDirection, breaches)?;
        self.check(PortRule::Class, breaches)
    }

    /// A rule on one port alone, over the ports in order of index.
    pub(crate) fn check(&self, rule: PortRule, breaches: &[Breaches]) -> Result<(), DeclFault>
        requires breaches { breaches.now ≡ map (breaches_of self.now.store.now) (ports_of self.now.store.now self.now.term.now) }
        requires few { length breaches.now ≤ MOST_PORTS }
        requires kept { AreKeptBelow self.now.store.now self.now.term.now self.now.block (number (rule_of rule)) }
        ensures { Checked self.now.store.now self.now.term.now self.now.block (number (rule_of rule) + 1) result }
    {
        match rule.first(breaches) {
            Some(index) => Err(rule.fault(index as u32)),
            None => Ok(()),
        }
    }

    fn check_same_symbol(&self, ports: &[Port]) -> Result<(), DeclFault>
        requires ports { ports.now ≡ declared_ports self.now.store.now self.now.term.now }
        requires few { length ports.now ≤ MOST_PORTS }
        requires kept { AreKeptBelow self.now.store.now self.now.term.now self.now.block 5 }
        ensures { Checked self.now.store.now self.now.term.now self.now.block 6 result }
    {
        match first_same_symbol(ports) {
            Some(index) => Err(DeclFault::SameSymbol(index as u32)),
            None => Ok(()),
        }
    }
}
