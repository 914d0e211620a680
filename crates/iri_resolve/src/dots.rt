ghost use Rattle.std.specs.Prelude.{◌≡◌, ◌<◌, ◌≤◌, ◌++◌, [], ◌∷◌, ◌-◌, not, length, take, drop, vec_len, OnOk, IfOk, IsTrue};
ghost use Rattle.std.specs.List.{position_or_len, suffix_len};
ghost use Rattle.iri_resolve.specs.Dots as spec;
ghost use Rattle.iri_resolve.specs.Dots.{is_slash, segment_len, without_last, without_dots};

use memchr::{memchr, memrchr};
use std::alloc::AllocError;

/// Adds a path without its dot segments to the end of an output: RFC 3986, section 5.2.4. What stood in the output before is no
/// part of the path. It takes a time in proportion to the path's length.
pub(crate) fn push_without_dots(output: &mut Vec<u8>, path: &[u8]) -> Result<(), AllocError>
    ensures { OnOk result (output.new.items ≡ output.old.items ++ without_dots path.now) }
{
    let floor = output.len();
    let mut input = path;
    while !input.is_empty() {
        input = turn(input, output, floor)?;
    }
    Ok(())
}

/// Whether no segment of a path begins with a dot, so that none is a dot segment.
pub(crate) fn is_undotted(path: &[u8]) -> bool
    ensures { IsTrue result → without_dots path.now ≡ path.now }
{
    let mut from = 0;
    while let Some(found) = memchr(b'.', &path[from..]) {
        let at = from + found;
        if at == 0 || path[at - 1] == b'/' {
            return false;
        }
        from = at + 1;
    }
    true
}

/// One turn: what is left of the input. The output proper begins at `floor`.
#[tactic(auto, using(crate::proofs::Turns::cuts))]
fn turn<'a>(input: &'a [u8], output: &mut Vec<u8>, floor: usize) -> Result<&'a [u8], AllocError>
    requires some { 0 < length input.now }
    requires within { floor ≤ vec_len output.old }
    ensures left { IfOk result (λ rest. rest.now ≡ (spec.turn input.now (drop floor output.old.items)).0) }
    ensures shorter { IfOk result (λ rest. length rest.now < length input.now) }
    ensures written { OnOk result (drop floor output.new.items ≡ (spec.turn input.now (drop floor output.old.items)).1) }
    ensures same { OnOk result (take floor output.new.items ≡ take floor output.old.items) }
    ensures within { floor ≤ vec_len output.new }
{
    if input.starts_with(b"../") {
        return Ok(&input[3..]);
    }
    if input.starts_with(b"./") || input.starts_with(b"/./") {
        return Ok(&input[2..]);
    }
    if input == b"/.".as_slice() {
        return Ok(&input[..1]);
    }
    if input.starts_with(b"/../") {
        pop_segment(output, floor);
        return Ok(&input[3..]);
    }
    if input == b"/..".as_slice() {
        pop_segment(output, floor);
        return Ok(&input[..1]);
    }
    if input == b".".as_slice() || input == b"..".as_slice() {
        return Ok(&input[..0]);
    }
    push_segment(input, output, floor)
}

/// Moves the first segment to the output that begins at `floor`, and gives what follows it.
#[tactic(auto, using(crate::proofs::Turns::cuts))]
fn push_segment<'a>(
    input: &'a [u8],
    output: &mut Vec<u8>,
    floor: usize,
) -> Result<&'a [u8], AllocError>
    requires some { 0 < length input.now }
    requires within { floor ≤ vec_len output.old }
    ensures left { IfOk result (λ rest. rest.now ≡ drop (segment_len input.now) input.now) }
    ensures shorter { IfOk result (λ rest. length rest.now < length input.now) }
    ensures written { OnOk result (drop floor output.new.items ≡ drop floor output.old.items ++ take (segment_len input.now) input.now) }
    ensures same { OnOk result (take floor output.new.items ≡ take floor output.old.items) }
    ensures within { floor ≤ vec_len output.new }
{
    let (segment, rest) = input.split_at(segment_end(input));
    output.extend_from_slice(segment)?;
    Ok(rest)
}

/// Takes the last segment and the `/` before it, if any, from the output that begins at `floor`.
#[tactic(auto, using(crate::proofs::Turns::cuts))]
fn pop_segment(output: &mut Vec<u8>, floor: usize)
    requires { floor ≤ vec_len output.old }
    ensures popped { drop floor output.new.items ≡ without_last (drop floor output.old.items) }
    ensures same { take floor output.new.items ≡ take floor output.old.items }
    ensures within { floor ≤ vec_len output.new }
{
    let last = last_segment(&output[floor..]);
    output.truncate(floor + last);
}

/// Where the last segment of a path begins, with the `/` before it.
fn last_segment(path: &[u8]) -> usize
    ensures value { result ≡ length path.now - suffix_len (λ c. not (is_slash c)) path.now - 1 }
    ensures within { result ≤ length path.now }
{
    memrchr(b'/', path).unwrap_or(0)
}

/// The length of the first segment of a path: with the `/` before it, if any, up to the next `/` or the end.
fn segment_end(path: &[u8]) -> usize
    requires { 0 < length path.now }
    ensures value { result ≡ segment_len path.now }
    ensures within { (0 < result) × (result ≤ length path.now) }
{
    1 + slash_or_len(&path[1..])
}

fn slash_or_len(rest: &[u8]) -> usize
    ensures value { result ≡ position_or_len is_slash rest.now }
    ensures within { result ≤ length rest.now }
{
    memchr(b'/', rest).unwrap_or(rest.len())
}
