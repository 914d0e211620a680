ghost use Rattle.std.specs.Prelude.{◌≡◌, ◌++◌, OnOk, decimal};
ghost use Rattle.triple_list.specs.Listing.{iri_text, blank_text, datatype_text, kind_text, literal_text, term_text};

use crate::escape::push_escaped;
use lv_base::{Bytes, NoMemory, Text};
use triple_store::Term;
use vocabulary::Word;

/// Adds a term as `push_listing` writes it. After a refusal `into` may hold a part of the term.
pub fn push_term(into: &mut Bytes, term: &Term) -> Result<(), NoMemory>
    ensures { OnOk result (into.new ≡ into.old ++ term_text term.now) }
{
    match term {
        Term::Iri(iri) => push_iri(into, iri),
        Term::Blank(number) => push_blank(into, *number),
        Term::Literal {
            text,
            datatype,
            lang,
        } => push_literal(into, text, datatype, lang),
    }
}

fn push_iri(into: &mut Bytes, iri: &Text) -> Result<(), NoMemory>
    ensures { OnOk result (into.new ≡ into.old ++ iri_text iri.now) }
{
    into.push_str("<")?;
    into.push_str(iri.as_str())?;
    into.push_str(">")
}

fn push_blank(into: &mut Bytes, number: u32) -> Result<(), NoMemory>
    ensures { OnOk result (into.new ≡ into.old ++ blank_text number) }
{
    into.push_str("_:")?;
    into.push_decimal(u64::from(number))
}

fn push_literal(into: &mut Bytes, text: &Text, datatype: &Text, lang: &Text) -> Result<(), NoMemory>
    ensures { OnOk result (into.new ≡ into.old ++ literal_text text.now datatype.now lang.now) }
{
    into.push_str("\"")?;
    push_escaped(into, text.as_bytes())?;
    into.push_str("\"")?;
    push_kind(into, datatype, lang)
}

// What stands after a literal's text.
fn push_kind(into: &mut Bytes, datatype: &Text, lang: &Text) -> Result<(), NoMemory>
    ensures { OnOk result (into.new ≡ into.old ++ kind_text datatype.now lang.now) }
{
    if lang.as_bytes().is_empty() {
        return push_datatype(into, datatype);
    }
    into.push_str("@")?;
    into.push_str(lang.as_str())
}

fn push_datatype(into: &mut Bytes, datatype: &Text) -> Result<(), NoMemory>
    ensures { OnOk result (into.new ≡ into.old ++ datatype_text datatype.now) }
{
    if datatype.as_str() == Word::XsdString.iri() {
        return Ok(());
    }
    into.push_str("^^")?;
    push_iri(into, datatype)
}
