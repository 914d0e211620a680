ghost use Rattle.std.specs.Prelude.{◌≡◌, not};
ghost use Rattle.std.specs.List.{list_all};
ghost use Rattle.iri_resolve.specs.Excluded as excluded;
ghost use Rattle.iri_resolve.specs.Iri.{is_iri_text};

use crate::excluded::is_excluded;
use crate::parts::has_scheme;

/// Whether a text is an IRI in full: it has a scheme (RFC 3986, appendix B), and no character that may not stand in an IRI between
/// angle brackets (Turtle 1.1, IRIREF).
///
/// `is_iri(b"urn:lv2fx:level")` is true; `is_iri(b"level")` and `is_iri(b"urn:a b")` are false.
pub fn is_iri(text: &[u8]) -> bool
    ensures { result ≡ is_iri_text text.now }
{
    has_scheme(text) && is_clean(text)
}

/// Whether a text has no character that an IRI may not hold.
fn is_clean(text: &[u8]) -> bool
    ensures { result ≡ list_all (λ c. not (excluded.is_excluded c)) text.now }
{
    text.iter().all(|byte| !is_excluded(*byte))
}
