ghost use Rattle.std.specs.Prelude.{◌≡◌, ◌≤◌, ◌⊎◌, ◌++◌, ◌∷◌, ℕ, List, [], length, map, IfOk, IfErr, OnOk};
ghost use Rattle.std.specs.List.{filter_map};
ghost use Rattle.triple_store.specs.declared.term.Term.{Term};
ghost use Rattle.triple_store.specs.declared.term.Term.TheVariants.{Iri};
ghost use Rattle.triple_store.specs.declared.term.Triple.{Triple};
ghost use Rattle.plugin_decl.specs.declared.declaration.DeclFault.{DeclFault};
ghost use Rattle.plugin_decl.specs.Declaration.{stated_version, version, extends, has_feature, is_safe, iris_of, ports_of, declared_ports, declaration_of, version_of};
ghost use Rattle.plugin_decl.specs.Ports.{port_of};
ghost use Rattle.plugin_decl.specs.PortFacts.{breaches_of};
ghost use Rattle.plugin_decl.specs.Values.{iri_in};
ghost use Rattle.plugin_decl.specs.Rules.{AreKeptBelow, AreAllKept, IsFirstBroken, IsCause};
ghost use Rattle.plugin_decl.specs.Checks.{Checked};
ghost use Rattle.plugin_decl.specs.Answer.{IsDeclOrNoMemory, IsFaultOrNoMemory};
ghost use Rattle.plugin_decl.specs.Valid.{IsValid};

use crate::breaches::Breaches;
use crate::declaration::{Decl, DeclFault, Port, Version};
use crate::indexes::MOST_PORTS;
use crate::objects::{Found, first, has, is_a, objects};
use crate::plugin::Plugin;
use crate::port::copy;
use crate::port_facts::PortFacts;
use crate::port_rules::PortRule;
use crate::values::{iri, name, natural};
use lv_base::{Items, NoMemory, Text};
use std::alloc::Global;
use triple_store::{Store, Term};
use vocabulary::Word;

/// What the triples of a store declare of a plug-in, or the first rule that they break; for blocks of `block` frames.
///
/// The rules are those of `DeclFault`, in its order. A feature or an option that isn't an IRI isn't supported.
pub fn declare(alloc: Global, store: &Store, uri: &Text, block: u32) -> Result<Decl, DeclFault>
    ensures kept { OnOk result (AreAllKept store.now (Iri uri.now) block) }
    ensures value { IfOk result (λ decl. decl ≡ declaration_of store.now uri.now) }
    ensures valid { IfOk result IsValid }
    ensures err { IfErr result (IsCause store.now (Iri uri.now) block) }

    // Every URI is answered: the only other answer is that memory was refused.
    ensures declared { AreAllKept store.now (Iri uri.now) block → IsDeclOrNoMemory (declaration_of store.now uri.now) result }
    ensures broken { (fault : DeclFault) → IsFirstBroken store.now (Iri uri.now) block fault → IsFaultOrNoMemory fault result }
{
    let term = iri_of(uri)?;
    let plugin = Plugin {
        store,
        term: &term,
        block,
    };
    plugin.declare(alloc, uri)
}

/// The version with which the triples of a store declare a plug-in, whatever rules its declaration breaks: `None` exactly where the
/// URI isn't an `lv2:Plugin`.
pub fn version_of(store: &Store, uri: &Text) -> Result<Option<Version>, NoMemory>
    ensures { IfOk result (λ version. version ≡ version_of store.now uri.now) }
{
    let term = iri_of(uri)?;
    Ok(declared_version(store, &term))
}

#[tactic(auto, unfolding(crate::specs::Declaration::version_of))]
fn declared_version(store: &Store, plugin: &Term) -> Option<Version>
    ensures { (uri : List ℕ) → plugin.now ≡ Iri uri → result ≡ version_of store.now uri }
{
    if !is_a(store, plugin, Word::Lv2Plugin) {
        return None;
    }
    Some(Version {
        minor: version(store, plugin, Word::Lv2MinorVersion),
        micro: version(store, plugin, Word::Lv2MicroVersion),
    })
}

/// The first `lv2:minorVersion` or `lv2:microVersion`, if it is a number that fits.
#[tactic(auto, unfolding(crate::specs::Declaration::stated_version))]
fn stated_version(store: &Store, plugin: &Term, word: Word) -> Option<u32>
    ensures { result ≡ stated_version store.now plugin.now word }
{
    natural(u32::MAX, first(store, plugin, word)?)
}

fn version(store: &Store, plugin: &Term, word: Word) -> u32
    ensures { result ≡ version store.now plugin.now word }
{
    stated_version(store, plugin, word).unwrap_or(0)
}

/// A law, and no step of a program: the triples of a URI have at most one answer.
pub fn one_answer()
    ensures fault { (rows : List Triple) (plugin : Term) (block : ℕ) (a b : DeclFault) → IsFirstBroken rows plugin block a → IsFirstBroken rows plugin block b → a ≡ b }
    ensures not_both { (rows : List Triple) (plugin : Term) (block : ℕ) (fault : DeclFault) → AreAllKept rows plugin block → ¬ IsFirstBroken rows plugin block fault }
{}

/// A law, and no step of a program: the triples of a URI have an answer.
pub fn some_answer()
    ensures { (rows : List Triple) (plugin : Term) (block : ℕ) → AreAllKept rows plugin block ⊎ ((fault : DeclFault) × IsFirstBroken rows plugin block fault) }
{}

fn iri_of(uri: &Text) -> Result<Term, NoMemory>
    ensures { IfOk result (λ term. term ≡ Iri uri.now) }
{
    Ok(Term::Iri(uri.clone()?))
}

/// Adds the IRIs among these objects.
fn push_iris(found: Found<'_>, iris: &mut Items<Text>) -> Result<(), NoMemory>
    ensures { OnOk result (iris.new ≡ iris.old ++ filter_map iri_in found.entry) }
{
    for object in found {
        if let Some(iri) = iri(object) {
            iris.push(iri.clone()?)?;
        }
    }
    Ok(())
}

/// Adds what is declared of a port, and which rules it breaks.
fn push_port(
    alloc: Global,
    store: &Store,
    node: &Term,
    ports: &mut Items<Port>,
    breaches: &mut Items<Breaches>,
) -> Result<(), NoMemory>
    ensures ports { OnOk result (ports.new ≡ ports.old ++ port_of store.now node.now ∷ []) }
    ensures breaches { OnOk result (breaches.new ≡ breaches.old ++ breaches_of store.now node.now ∷ []) }
{
    let facts = PortFacts::read(store, node);
    let port = facts.port(alloc)?;
    ports.push(port)?;
    breaches.push(facts.breaches())?;
    Ok(())
}

/// Adds what is declared of each of some ports, and which rules it breaks.
fn push_ports(
    alloc: Global,
    store: &Store,
    nodes: &[Term],
    ports: &mut Items<Port>,
    breaches: &mut Items<Breaches>,
) -> Result<(), NoMemory>
    ensures ports { OnOk result (ports.new ≡ ports.old ++ map (port_of store.now) nodes.now) }
    ensures breaches { OnOk result (breaches.new ≡ breaches.old ++ map (breaches_of store.now) nodes.now) }
{
    for node in nodes {
        push_port(alloc, store, node, ports, breaches)?;
    }
    Ok(())
}

impl<'a> Plugin<'a> {
    fn declare(&self, alloc: Global, uri: &Text) -> Result<Decl, DeclFault>
        requires { self.now.term.now ≡ Iri uri.now }
        ensures checked { Checked self.now.store.now self.now.term.now self.now.block 13 result }
        ensures value { IfOk result (λ decl. decl ≡ declaration_of self.now.store.now uri.now) }
        ensures few { OnOk result (length (ports_of self.now.store.now self.now.term.now) ≤ MOST_PORTS) }
    {
        self.check_class()?;
        let nodes = self.ports_by_index(alloc)?;
        let ports = self.judged_ports(alloc, nodes.as_slice())?;
        Ok(self.declaration(alloc, uri, ports)?)
    }

    /// What is declared of these ports, or the first broken rule after those on indexes.
    fn judged_ports(&self, alloc: Global, nodes: &[Term]) -> Result<Items<Port>, DeclFault>
        requires nodes { nodes.now ≡ ports_of self.now.store.now self.now.term.now }
        requires few { length nodes.now ≤ MOST_PORTS }
        requires kept { AreKeptBelow self.now.store.now self.now.term.now self.now.block 4 }
        ensures checked { Checked self.now.store.now self.now.term.now self.now.block 13 result }
        ensures ports { IfOk result (λ ports. ports ≡ declared_ports self.now.store.now self.now.term.now) }
    {
        let mut ports = Items::new(alloc);
        let mut breaches = Items::new(alloc);
        push_ports(alloc, self.store, nodes, &mut ports, &mut breaches)?;
        self.check_after_indexes(breaches.as_slice(), ports.as_slice())?;
        Ok(ports)
    }

    /// The rules after those on indexes.
    fn check_after_indexes(&self, breaches: &[Breaches], ports: &[Port]) -> Result<(), DeclFault>
        requires breaches { breaches.now ≡ map (breaches_of self.now.store.now) (ports_of self.now.store.now self.now.term.now) }
        requires ports { ports.now ≡ declared_ports self.now.store.now self.now.term.now }
        requires few { length breaches.now ≤ MOST_PORTS }
        requires few_ports { length ports.now ≤ MOST_PORTS }
        requires kept { AreKeptBelow self.now.store.now self.now.term.now self.now.block 4 }
        ensures { Checked self.now.store.now self.now.term.now self.now.block 13 result }
    {
        self.check_ports(breaches, ports)?;
        self.check_features()?;
        self.check_options()?;
        self.check(PortRule::Value, breaches)
    }

    /// The declaration with these ports.
    #[tactic(auto, unfolding(crate::specs::Declaration::declaration_of))]
    fn declaration(&self, alloc: Global, uri: &Text, ports: Items<Port>) -> Result<Decl, NoMemory>
        requires uri { self.now.term.now ≡ Iri uri.now }
        requires ports { ports ≡ declared_ports self.now.store.now self.now.term.now }
        ensures { IfOk result (λ decl. decl ≡ declaration_of self.now.store.now uri.now) }
    {
        let name = copy(alloc, name(self.store, self.term, Word::DoapName))?;
        let reads = self.iris(alloc, Word::PatchReadable)?;
        let writes = self.iris(alloc, Word::PatchWritable)?;
        Ok(Decl {
            uri: uri.clone()?,
            name,
            minor: version(self.store, self.term, Word::Lv2MinorVersion),
            micro: version(self.store, self.term, Word::Lv2MicroVersion),
            ports,
            worker: self.extends(Word::WorkInterface),
            state: self.extends(Word::StateInterface),
            safe: self.is_safe(),
            reads,
            writes,
        })
    }

    /// Whether it has an extension's interface.
    fn extends(&self, interface: Word) -> bool
        ensures { result ≡ extends self.now.store.now self.now.term.now interface }
    {
        has(self.store, self.term, Word::Lv2ExtensionData, interface)
    }

    fn has_feature(&self, feature: Word) -> bool
        ensures { result ≡ has_feature self.now.store.now self.now.term.now feature }
    {
        has(self.store, self.term, Word::Lv2RequiredFeature, feature)
            || has(self.store, self.term, Word::Lv2OptionalFeature, feature)
    }

    fn is_safe(&self) -> bool
        ensures { result ≡ is_safe self.now.store.now self.now.term.now }
    {
        let interfaces = self.extends(Word::WorkInterface) && self.extends(Word::StateInterface);
        interfaces && self.has_feature(Word::StateThreadSafeRestore)
    }

    /// The IRIs among the objects of a predicate.
    #[tactic(auto, unfolding(crate::specs::Declaration::iris_of))]
    fn iris(&self, alloc: Global, word: Word) -> Result<Items<Text>, NoMemory>
        ensures { IfOk result (λ iris. iris ≡ iris_of self.now.store.now self.now.term.now word) }
    {
        let mut iris = Items::new(alloc);
        push_iris(objects(self.store, self.term, word), &mut iris)?;
        Ok(iris)
    }
}
