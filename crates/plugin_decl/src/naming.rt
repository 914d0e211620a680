ghost use Rattle.std.specs.Prelude.{◌≡◌};
ghost use Rattle.plugin_decl.specs.Naming as spec;

use triple_store::Term;
use vocabulary::Word;

/// Whether a term is the IRI of a word.
pub(crate) fn is_word(word: Word, term: &Term) -> bool
    ensures { result ≡ spec.names word term.now }
{
    match term {
        Term::Iri(iri) => word.iri() == iri.as_str(),
        _ => false,
    }
}
