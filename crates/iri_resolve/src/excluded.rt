ghost use Rattle.std.specs.Prelude.{◌≡◌, ◌<◌, ◌≤◌, length, min, IsUtf8, IfNone, IfOk, MatchOption, MatchResult, position};
ghost use Rattle.std.specs.List.{position_or_len};
ghost use Rattle.iri_resolve.specs.Excluded as spec;
ghost use Rattle.iri_resolve.specs.Excluded.{first_bad, IsFirstBad};

/// Whether a character may not stand in an IRI between angle brackets (Turtle 1.1, IRIREF): U+0000 to U+0020 and `<>"{}|^`, the
/// backquote and the backslash. All of them are ASCII, so a byte of a longer character never is.
///
/// `is_excluded(b' ')` is true, and `is_excluded(b'%')` false.
#[tactic(auto, unfolding(turtle_grammar::specs::Characters::is_excluded))]
pub fn is_excluded(byte: u8) -> bool
    ensures { result ≡ spec.is_excluded byte }
{
    matches!(
        byte,
        0..=b' ' | b'"' | b'<' | b'>' | b'\\' | b'^' | b'`' | b'{' | b'|' | b'}'
    )
}

/// The first place at which a text is no part of an IRI: an excluded character, or a byte from which on it isn't UTF-8, whichever
/// is less.
///
/// `bad_char(b"a/b c")` is `Some(3)`.
pub fn bad_char(text: &[u8]) -> Option<usize>
    ensures place { MatchOption result (first_bad text.now ≡ length text.now) (IsFirstBad text.now) }
    ensures utf8 { IfNone result (IsUtf8 text.now) }
{
    match iri_text(text) {
        Ok(_) => None,
        Err(at) => Some(at),
    }
}

/// The characters of a text that has no bad one, or the place of the first (see `bad_char`).
pub(crate) fn iri_text(text: &[u8]) -> Result<&str, usize>
    ensures place { MatchResult result (λ _. first_bad text.now ≡ length text.now) (IsFirstBad text.now) }
    ensures utf8 { IfOk result (λ _. IsUtf8 text.now) }
    ensures same { IfOk result (λ whole. whole.now ≡ text.now) }
{
    let first = first_excluded(text);
    match simdutf8::compat::from_utf8(text) {
        Ok(whole) if first == text.len() => Ok(whole),
        Ok(_) => Err(first),
        Err(fault) => Err(first.min(fault.valid_up_to())),
    }
}

#[tactic(auto, using(crate::proofs::First::position_or_end))]
fn first_excluded(text: &[u8]) -> usize
    ensures { result ≡ position_or_len spec.is_excluded text.now }
{
    excluded_at(text).unwrap_or(text.len())
}

fn excluded_at(text: &[u8]) -> Option<usize>
    ensures { result ≡ position spec.is_excluded text.now }
{
    text.iter().position(|byte| is_excluded(*byte))
}
