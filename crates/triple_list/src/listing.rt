ghost use Rattle.std.specs.Prelude.{◌≡◌, ◌++◌, OnOk, length};
ghost use Rattle.triple_list.specs.Listing.{triple_line, count_line, listing_of};

use crate::term::push_term;
use lv_base::{Bytes, NoMemory};
use triple_store::Triple;

/// Adds a line for each triple, its terms with a space between, and then the line `triples N`.
///
/// An IRI stands in angle brackets, a blank node as `_:` with its number, a literal in quotes, with its language tag after an `@`,
/// or else its datatype after `^^` unless it is xsd:string. In a literal the backslash, the quote, the line feed, the carriage return
/// and the tab are written as `\\`, `\"`, `\n`, `\r` and `\t` (Turtle 1.1, section 6.4), and all else as it is.
///
/// The time is in proportion to the bytes. After a refusal `into` may hold a part of the listing.
pub fn push_listing(into: &mut Bytes, rows: &[Triple]) -> Result<(), NoMemory>
    ensures { OnOk result (into.new ≡ into.old ++ listing_of rows.now) }
{
    for row in rows {
        push_line(into, row)?;
    }
    push_count(into, rows.len())
}

fn push_line(into: &mut Bytes, row: &Triple) -> Result<(), NoMemory>
    ensures { OnOk result (into.new ≡ into.old ++ triple_line row.now) }
{
    push_term(into, &row.s)?;
    into.push_str(" ")?;
    push_term(into, &row.p)?;
    into.push_str(" ")?;
    push_term(into, &row.o)?;
    into.push_str("\n")
}

fn push_count(into: &mut Bytes, count: usize) -> Result<(), NoMemory>
    ensures { OnOk result (into.new ≡ into.old ++ count_line count) }
{
    into.push_str("triples ")?;
    into.push_decimal(count as u64)?;
    into.push_str("\n")
}
