ghost use Rattle.std.specs.Prelude.{◌≡◌, ◌≤◌, ◌<◌, ◌+◌, ◌↔◌, length, slice_range, IsTrue, IsUtf8, MatchResult};
ghost use Rattle.atom_core.specs.Place.{AreZero};
ghost use Rattle.atom_core.specs.Fits.{has_no_zero, IsText};
ghost use Rattle.atom_core.specs.Content.{IsEndedText, TextFault, ZeroFault, IsContent, ContentFault, IsOwn, OwnFault, end_at};

use crate::fault::AtomFault;
use crate::form::{Form, allows_size, form_of};
use crate::number::u32_at;

/// Whether no byte is zero.
fn has_no_zero(bytes: &[u8]) -> bool
    ensures { result ≡ has_no_zero bytes.now }
{
    bytes.iter().all(|c| *c != 0)
}

fn is_utf8(bytes: &[u8]) -> bool
    ensures { IsTrue result ↔ IsUtf8 bytes.now }
{
    simdutf8::basic::from_utf8(bytes).is_ok()
}

/// Whether bytes are UTF-8 without a zero byte.
fn is_text(bytes: &[u8]) -> bool
    ensures { IsTrue result ↔ IsText bytes.now }
{
    has_no_zero(bytes) && is_utf8(bytes)
}

/// Whether a body is a text and one zero.
fn is_ended_text(body: &[u8]) -> bool
    ensures { IsTrue result ↔ IsEndedText body.now }
{
    match body {
        [text @ .., 0] => is_text(text),
        _ => false,
    }
}

/// Judges the text from one place up to another.
fn judge_text(bytes: &[u8], from: usize, to: usize) -> Result<(), AtomFault>
    requires begins { from ≤ to }
    requires ends { to ≤ length bytes.now }
    ensures { MatchResult result (λ _. IsEndedText (slice_range bytes.now from to)) (λ fault. TextFault bytes.now from to fault) }
{
    if is_ended_text(&bytes[from..to]) {
        Ok(())
    } else {
        Err(AtomFault::BadText(from))
    }
}

/// Judges bytes that are to be zero.
pub fn judge_zeros(bytes: &[u8], from: usize, to: usize) -> Result<(), AtomFault>
    requires { to ≤ length bytes.now }
    ensures { MatchResult result (λ _. AreZero bytes.now from to) (λ fault. ZeroFault bytes.now from to fault) }
{
    for place in from..to {
        if bytes[place] != 0 {
            return Err(AtomFault::BadPad(place));
        }
    }
    Ok(())
}

/// Judges what an atom of this form, of a size that it may have, says itself.
fn judge_content(bytes: &[u8], at: usize, end: usize, form: Form) -> Result<(), AtomFault>
    requires ends { end ≤ length bytes.now }
    requires text { at + 8 ≤ end }
    requires literal { form ≡ Form.Literal → at + 16 ≤ end }
    requires sequence { form ≡ Form.Sequence → at + 16 ≤ end }
    ensures { MatchResult result (λ _. IsContent form bytes.now at end) (λ fault. ContentFault form bytes.now at end fault) }
{
    match form {
        Form::Text => judge_text(bytes, at + 8, end),
        Form::Literal => judge_text(bytes, at + 16, end),
        Form::Sequence => judge_zeros(bytes, at + 8, at + 16),
        _ => Ok(()),
    }
}

/// The form of the atom whose header is at a place, where its own bytes are well.
pub fn judge_own(bytes: &[u8], at: usize) -> Result<Form, AtomFault>
    requires header { at + 8 ≤ length bytes.now }
    requires body { end_at bytes.now at ≤ length bytes.now }
    ensures { MatchResult result (λ form. IsOwn bytes.now at form) (λ fault. OwnFault bytes.now at fault) }
{
    let size = u32_at(bytes, at) as usize;
    let form = form_of(u32_at(bytes, at + 4));
    if !allows_size(bytes, at, form, size) {
        return Err(AtomFault::BadSize(at));
    }
    judge_content(bytes, at, at + 8 + size, form)?;
    Ok(form)
}
