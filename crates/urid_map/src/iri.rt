ghost use Rattle.std.specs.Prelude.{◌≡◌};
ghost use Rattle.iri_resolve.specs.Iri as spec;

use iri_resolve::is_iri;
use lv_base::Text;

/// Whether a text is an IRI in full, which can have a number: it has a scheme (RFC 3986, appendix B), and no character that may not
/// stand in an IRI between angle brackets (Turtle 1.1, IRIREF).
///
/// `urn:lv2fx:level` is one; `level` and `urn:a b` are none.
pub fn is_iri_text(uri: &Text) -> bool
    ensures { result ≡ spec.is_iri_text uri.now }
{
    is_iri(uri.as_bytes())
}
