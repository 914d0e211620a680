ghost use Rattle.std.specs.Prelude.{◌≡◌, ◌++◌, OnOk};
ghost use Rattle.plugin_list.specs.Rules.{with_number, with_term, named_term, rule_text};

use lv_base::{Bytes, NoMemory};
use plugin_decl::DeclFault;
use triple_list::push_term;
use triple_store::Term;

/// Adds the rule that a fault names: a word, and where there is one the place, the index or the term after it, as `gap 1`.
///
/// Of a feature or an option an IRI stands as it is, and any other term as in a list of triples. No line feed follows. Want of
/// memory is no rule, and has no text. After a refusal `into` may hold a part of the text.
pub fn push_rule(into: &mut Bytes, fault: &DeclFault) -> Result<(), NoMemory>
    ensures { OnOk result (into.new ≡ into.old ++ rule_text fault.now) }
{
    match fault {
        DeclFault::NoPlugin => into.push_str("no-plugin"),
        DeclFault::BadIndex(place) => push_with_number(into, "bad-index", *place),
        DeclFault::SameIndex(index) => push_with_index(into, "same-index", *index),
        DeclFault::Gap(index) => push_with_index(into, "gap", *index),
        DeclFault::BadSymbol(index) => push_with_index(into, "bad-symbol", *index),
        DeclFault::SameSymbol(index) => push_with_index(into, "same-symbol", *index),
        DeclFault::NoName(index) => push_with_index(into, "no-name", *index),
        DeclFault::NoDirection(index) => push_with_index(into, "no-direction", *index),
        DeclFault::TwoDirections(index) => push_with_index(into, "two-directions", *index),
        DeclFault::PortClass(index) => push_with_index(into, "port-class", *index),
        DeclFault::Feature(feature) => push_with_term(into, "feature", feature),
        DeclFault::RequiredOption(option) => push_with_term(into, "option", option),
        DeclFault::BadValue(index) => push_with_index(into, "bad-value", *index),
        DeclFault::NoMemory => Ok(()),
    }
}

fn push_with_index(into: &mut Bytes, word: &str, index: u32) -> Result<(), NoMemory>
    ensures { OnOk result (into.new ≡ into.old ++ with_number word.now index) }
{
    push_with_number(into, word, index as usize)
}

fn push_with_number(into: &mut Bytes, word: &str, number: usize) -> Result<(), NoMemory>
    ensures { OnOk result (into.new ≡ into.old ++ with_number word.now number) }
{
    into.push_str(word)?;
    into.push_str(" ")?;
    into.push_decimal(number as u64)
}

fn push_with_term(into: &mut Bytes, word: &str, term: &Term) -> Result<(), NoMemory>
    ensures { OnOk result (into.new ≡ into.old ++ with_term word.now term.now) }
{
    into.push_str(word)?;
    into.push_str(" ")?;
    push_named(into, term)
}

// An IRI without brackets, any other term as ever.
fn push_named(into: &mut Bytes, term: &Term) -> Result<(), NoMemory>
    ensures { OnOk result (into.new ≡ into.old ++ named_term term.now) }
{
    match term {
        Term::Iri(iri) => into.push_str(iri.as_str()),
        _ => push_term(into, term),
    }
}
