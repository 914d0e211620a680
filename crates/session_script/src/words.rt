ghost use Rattle.std.specs.Prelude.{◌≡◌, [], ◌∷◌, ◌≤◌, ◌<◌, position, MatchOption, length};
ghost use Rattle.std.specs.List.{position_or_len};
ghost use Rattle.session_script.specs.Words.{words};
ghost use Rattle.session_script.specs.Words as spec;

/// The first word of a line and what comes after it.
pub(crate) fn cut_word(line: &str) -> Option<(&str, &str)>
    ensures { MatchOption result (words line.now ≡ []) (λ cut. words line.now ≡ cut.0.now ∷ words cut.1.now) }
{
    let line = skip_blanks(line);
    if line.is_empty() {
        return None;
    }
    let end = word_len(line.as_bytes());
    Some((&line[..end], &line[end..]))
}

/// The line from its first word on.
fn skip_blanks(line: &str) -> &str
    ensures same { words result.now ≡ words line.now }
    ensures word { 0 < length result.now → 0 < position_or_len spec.is_blank result.now }
{
    let mut rest = line;
    while let Some(first) = rest.as_bytes().first() {
        if !is_blank(*first) {
            return rest;
        }
        rest = &rest[1..];
    }
    rest
}

/// The length of the word that a line begins with.
fn word_len(line: &[u8]) -> usize
    ensures value { result ≡ position_or_len spec.is_blank line.now }
    ensures within { result ≤ length line.now }
{
    first_blank(line).unwrap_or(line.len())
}

fn first_blank(line: &[u8]) -> Option<usize>
    ensures { result ≡ position spec.is_blank line.now }
{
    line.iter().position(|byte| is_blank(*byte))
}

/// A space or a tab.
fn is_blank(byte: u8) -> bool
    ensures { result ≡ spec.is_blank byte }
{
    byte == b' ' || byte == b'\t'
}
