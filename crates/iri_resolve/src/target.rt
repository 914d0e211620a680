ghost use Rattle.std.specs.Prelude.{◌≡◌, [], ◌++◌, ◌+◌, ◌≤◌, ◌↔◌, ℕ, List, codes, length, take, OnOk, IfOk, IsNone, IsSome, IsTrue, is_some, if◌then◌else◌};
ghost use Rattle.iri_resolve.specs.Components.{scheme_of, parts_of, part_at, components, AreWithin, IsWithin};
ghost use Rattle.iri_resolve.specs.Dots.{without_dots};
ghost use Rattle.iri_resolve.specs.Target.{directory, merged, marked, scheme_text, transformed, resolved};
ghost use Rattle.iri_resolve.specs.Excluded.{IsFirstBad};

use crate::dots::{is_undotted, push_without_dots};
use crate::excluded::iri_text;
use crate::parts::{Parts, has_scheme, split};
use lv_base::{Text, TextFault};
use memchr::memrchr;
use std::alloc::{AllocError, Global};

/// Why a reference isn't resolved.
#[derive(Clone, Copy)]
pub enum IriFault {
    /// The base has no scheme.
    NotAbsoluteBase,
    /// The reference can't stand in an IRI from this place on: an excluded character, or no UTF-8 (see `bad_char`).
    BadChar(usize),
    /// Memory was refused.
    NoMemory,
}

/// The IRI that a reference names, seen from a base: RFC 3986, section 5.2.2 in its strict form, where a reference that has the
/// base's scheme is as absolute as any other. The base is judged first. It takes a time in proportion to both texts' lengths.
///
/// Seen from `http://a/b/c/d;p?q`, the reference `../g` names `http://a/b/g`.
pub fn resolve(alloc: Global, base: &Text, reference: &[u8]) -> Result<Text, IriFault>
    ensures ok { IfOk result (λ target. target ≡ resolved base.now reference.now) }
    ensures no_scheme { (result ≡ Err IriFault.NotAbsoluteBase) ↔ IsNone (scheme_of base.now) }
    ensures bad { (at : ℕ) → (result ≡ Err (IriFault.BadChar at))
        ↔ (IsSome (scheme_of base.now) × IsFirstBad reference.now at) }
{
    let base = base.as_bytes();
    if !has_scheme(base) {
        return Err(IriFault::NotAbsoluteBase);
    }
    let text = match iri_text(reference) {
        Ok(text) => text,
        Err(at) => return Err(IriFault::BadChar(at)),
    };
    let to = split(reference);
    if names_itself(reference, to) {
        return Text::from_str(alloc, text).map_err(|_| IriFault::NoMemory);
    }
    let Ok(target) = compose(alloc, base, reference, to) else {
        return Err(IriFault::NoMemory);
    };
    match Text::from_bytes(alloc, &target) {
        Ok(text) => Ok(text),
        Err(TextFault::NoMemory) => Err(IriFault::NoMemory),
        Err(TextFault::NotUtf8(_)) => unreachable!(),
    }
}

/// Whether a reference is seen to name itself, whatever the base: it has a scheme, and no segment of its path begins with a dot.
fn names_itself(reference: &[u8], to: Parts) -> bool
    requires parts { to ≡ parts_of reference.now }
    requires within { AreWithin reference.now to }
    ensures { IsTrue result → (base : List ℕ) → resolved base reference.now ≡ reference.now }
{
    to.scheme.is_some() && is_undotted(path_in(reference, to))
}

/// The text of the target.
fn compose(alloc: Global, base: &[u8], reference: &[u8], to: Parts) -> Result<Vec<u8>, AllocError>
    requires parts { to ≡ parts_of reference.now }
    requires within { AreWithin reference.now to }
    ensures { IfOk result (λ target. target.items ≡ resolved base.now reference.now) }
{
    let most = base.len().saturating_add(reference.len()).saturating_add(1);
    let mut target = Vec::with_capacity(alloc, most)?;
    push_target(alloc, &mut target, base, reference, to)?;
    Ok(target)
}

/// Writes the target. The branches are those of section 5.2.2, and each writes its components as section 5.3 has them.
fn push_target(
    alloc: Global,
    target: &mut Vec<u8>,
    base: &[u8],
    reference: &[u8],
    to: Parts,
) -> Result<(), AllocError>
    requires empty { target.old.items ≡ [] }
    requires parts { to ≡ parts_of reference.now }
    requires within { AreWithin reference.now to }
    ensures { OnOk result (target.new.items ≡ resolved base.now reference.now) }
{
    if to.scheme.is_some() {
        push_scheme(target, reference, to.scheme)?;
        push_named(target, reference, to)?;
    } else {
        push_relative(alloc, target, base, reference, to)?;
    }
    push_part(target, b"#", reference, to.fragment)
}

/// Adds what stands before the fragment of the target, of a reference that has no scheme.
fn push_relative(
    alloc: Global,
    target: &mut Vec<u8>,
    base: &[u8],
    reference: &[u8],
    to: Parts,
) -> Result<(), AllocError>
    requires parts { to ≡ parts_of reference.now }
    requires within { AreWithin reference.now to }
    requires no_scheme { IsNone to.scheme }
    ensures { let whole = transformed (components base.now) (components reference.now) in OnOk result (target.new.items
        ≡ target.old.items ++ scheme_text whole.scheme ++ marked (codes "//") whole.authority ++ whole.path ++ marked (codes "?") whole.query) }
{
    let from = split(base);
    push_scheme(target, base, from.scheme)?;
    if to.authority.is_some() {
        push_named(target, reference, to)
    } else {
        push_local(alloc, target, base, from, reference, to)
    }
}

/// Adds authority, path and query of a reference that has a scheme or an authority.
fn push_named(target: &mut Vec<u8>, reference: &[u8], to: Parts) -> Result<(), AllocError>
    requires parts { to ≡ parts_of reference.now }
    requires within { AreWithin reference.now to }
    ensures { let own = components reference.now in OnOk result (target.new.items
        ≡ target.old.items ++ marked (codes "//") own.authority ++ without_dots own.path ++ marked (codes "?") own.query) }
{
    push_part(target, b"//", reference, to.authority)?;
    push_without_dots(target, path_in(reference, to))?;
    push_part(target, b"?", reference, to.query)
}

/// Adds authority, path and query of a reference that has neither a scheme nor an authority.
fn push_local(
    alloc: Global,
    target: &mut Vec<u8>,
    base: &[u8],
    from: Parts,
    reference: &[u8],
    to: Parts,
) -> Result<(), AllocError>
    requires from { from ≡ parts_of base.now }
    requires from_within { AreWithin base.now from }
    requires to { to ≡ parts_of reference.now }
    requires to_within { AreWithin reference.now to }
    requires no_scheme { IsNone to.scheme }
    requires no_authority { IsNone to.authority }
    ensures { let whole = transformed (components base.now) (components reference.now) in OnOk result (target.new.items
        ≡ target.old.items ++ marked (codes "//") whole.authority ++ whole.path ++ marked (codes "?") whole.query) }
{
    let path = path_in(reference, to);
    push_part(target, b"//", base, from.authority)?;
    if path.is_empty() {
        return push_base_path(target, base, from, reference, to.query);
    }
    if path.starts_with(b"/") {
        push_without_dots(target, path)?;
    } else {
        push_merged(alloc, target, base, from, path)?;
    }
    push_part(target, b"?", reference, to.query)
}

/// Adds the path of the base, and a query: the reference's, if it is there, else that of the base.
fn push_base_path(
    target: &mut Vec<u8>,
    base: &[u8],
    from: Parts,
    reference: &[u8],
    query: Option<(usize, usize)>,
) -> Result<(), AllocError>
    requires from { from ≡ parts_of base.now }
    requires from_within { AreWithin base.now from }
    requires within { IsWithin reference.now query }
    ensures { let of_base = components base.now in OnOk result (target.new.items ≡ target.old.items ++ of_base.path
        ++ marked (codes "?") (if is_some query then part_at reference.now query else of_base.query)) }
{
    target.extend_from_slice(path_in(base, from))?;
    if query.is_some() {
        push_part(target, b"?", reference, query)
    } else {
        push_part(target, b"?", base, from.query)
    }
}

/// Adds a relative path, merged with that of the base and without its dot segments.
fn push_merged(
    alloc: Global,
    target: &mut Vec<u8>,
    base: &[u8],
    from: Parts,
    path: &[u8],
) -> Result<(), AllocError>
    requires from { from ≡ parts_of base.now }
    requires within { AreWithin base.now from }
    ensures { OnOk result (target.new.items ≡ target.old.items ++ without_dots (merged (components base.now) path.now)) }
{
    let most = path_in(base, from)
        .len()
        .saturating_add(path.len())
        .saturating_add(1);
    let mut whole = Vec::with_capacity(alloc, most)?;
    merge(&mut whole, base, from, path)?;
    push_without_dots(target, &whole)
}

/// Writes a relative path after the directory of the base: section 5.2.3.
fn merge(whole: &mut Vec<u8>, base: &[u8], from: Parts, path: &[u8]) -> Result<(), AllocError>
    requires empty { whole.old.items ≡ [] }
    requires from { from ≡ parts_of base.now }
    requires within { AreWithin base.now from }
    ensures { OnOk result (whole.new.items ≡ merged (components base.now) path.now) }
{
    let base_path = path_in(base, from);
    if from.authority.is_some() && base_path.is_empty() {
        whole.push(b'/')?;
    } else {
        whole.extend_from_slice(&base_path[..directory_len(base_path)])?;
    }
    whole.extend_from_slice(path)?;
    Ok(())
}

/// Adds a scheme and its `:`, if it is there.
fn push_scheme(
    target: &mut Vec<u8>,
    text: &[u8],
    place: Option<(usize, usize)>,
) -> Result<(), AllocError>
    requires { IsWithin text.now place }
    ensures { OnOk result (target.new.items ≡ target.old.items ++ scheme_text (part_at text.now place)) }
{
    if let Some((start, end)) = place {
        target.extend_from_slice(&text[start..end])?;
        target.extend_from_slice(b":")?;
    }
    Ok(())
}

/// Adds a component and the mark before it, if it is there.
fn push_part(
    target: &mut Vec<u8>,
    mark: &[u8],
    text: &[u8],
    place: Option<(usize, usize)>,
) -> Result<(), AllocError>
    requires { IsWithin text.now place }
    ensures { OnOk result (target.new.items ≡ target.old.items ++ marked mark.now (part_at text.now place)) }
{
    if let Some((start, end)) = place {
        target.extend_from_slice(mark)?;
        target.extend_from_slice(&text[start..end])?;
    }
    Ok(())
}

fn path_in<'a>(text: &'a [u8], parts: Parts) -> &'a [u8]
    requires parts { parts ≡ parts_of text.now }
    requires within { AreWithin text.now parts }
    ensures { result.now ≡ (components text.now).path }
{
    match parts.path {
        Some((start, end)) => &text[start..end],
        None => &text[..0],
    }
}

/// How much of a path reaches up to its last `/`.
fn directory_len(path: &[u8]) -> usize
    ensures value { take result path.now ≡ directory path.now }
    ensures within { result ≤ length path.now }
{
    match memrchr(b'/', path) {
        Some(at) => at + 1,
        None => 0,
    }
}
