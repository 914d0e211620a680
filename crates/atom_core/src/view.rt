ghost use Rattle.std.specs.Prelude.{◌≡◌, ◌≤◌, ◌-◌, length, drop, take, IsOk, IsErrOf, MatchResult};
ghost use Rattle.std.specs.Option.{option_copied};
ghost use Rattle.atom_core.specs.declared.fault.AtomFault.{AtomFault};
ghost use Rattle.atom_core.specs.Place.{kind_at};
ghost use Rattle.atom_core.specs.Value.{Value};
ghost use Rattle.atom_core.specs.Spelling.{kind_of, body_of};
ghost use Rattle.atom_core.specs.Answer.{Spells, IsAtom, HasFault};
ghost use Rattle.atom_core.specs.Readers.{int_of, long_of, fixed_of, urid_of, text_of};
ghost use Rattle.atom_core.specs.Atoms.{parts_in, HoldsAtoms, properties_in, HoldsProperties};

use crate::fault::AtomFault;
use crate::kind::{FIXED, INT, LONG, OBJECT, STRING, TUPLE, URID};
use crate::number::{i32_at, i64_at, u32_at};
use crate::outer::check;
use crate::parts::AtomParts;
use crate::properties::AtomProperties;
use lv_base::Fixed;

/// An atom in place: the bytes of its header and of its body.
#[derive(Clone, Copy)]
pub struct AtomView<'a> {
    bytes: &'a [u8],
    ghost spelled: { ∥ IsAtom bytes.now ∥₁ },
}

/// Looks at bytes as an atom, if they are one and all of it.
pub fn read(bytes: &[u8]) -> Result<AtomView<'_>, AtomFault>
    ensures answer { MatchResult result (λ view. (view.bytes.now ≡ bytes.now) × IsAtom bytes.now) (λ fault. HasFault bytes.now fault) }
    // What spells a value is never refused.
    ensures only { (v : Value) → Spells bytes.now v → IsOk result }
    // There is no other first fault.
    ensures exact { (fault : AtomFault) → HasFault bytes.now fault → IsErrOf result fault }
{
    match check(bytes) {
        Ok(()) => Ok(AtomView { bytes }),
        Err(fault) => Err(fault),
    }
}

/// What stands after so many bytes.
pub fn behind(bytes: &[u8], from: usize) -> &[u8]
    requires { from ≤ length bytes.now }
    ensures { result.now ≡ drop from bytes.now }
{
    &bytes[from..]
}

/// A text without its last byte.
fn without_zero(text: &[u8]) -> &[u8]
    requires { 1 ≤ length text.now }
    ensures { result.now ≡ take (length text.now - 1) text.now }
{
    &text[..text.len() - 1]
}

impl<'a> AtomView<'a> {
    /// The atom that bytes spell.
    pub fn over(bytes: &'a [u8]) -> Self
        requires { ∥ IsAtom bytes.now ∥₁ }
        ensures { result.bytes.now ≡ bytes.now }
    {
        AtomView { bytes }
    }

    /// The number of its type.
    pub fn kind(&self) -> u32
        ensures place { result ≡ kind_at self.now.bytes.now 0 }
        ensures value { (v : Value) → Spells self.now.bytes.now v → result ≡ kind_of v }
    {
        u32_at(self.bytes, 4)
    }

    /// The bytes of its body.
    pub fn body(&self) -> &'a [u8]
        ensures place { result.now ≡ drop 8 self.now.bytes.now }
        ensures value { (v : Value) → Spells self.now.bytes.now v → result.now ≡ body_of v }
    {
        behind(self.bytes, 8)
    }

    /// The number of an Int.
    pub fn int(&self) -> Option<i32>
        ensures { (v : Value) → Spells self.now.bytes.now v → result ≡ int_of v }
    {
        if self.kind() != INT {
            return None;
        }
        Some(i32_at(self.bytes, 8))
    }

    /// The number of a Long.
    pub fn long(&self) -> Option<i64>
        ensures { (v : Value) → Spells self.now.bytes.now v → result ≡ long_of v }
    {
        if self.kind() != LONG {
            return None;
        }
        Some(i64_at(self.bytes, 8))
    }

    /// The value of a Fixed.
    pub fn fixed(&self) -> Option<Fixed>
        ensures { (v : Value) → Spells self.now.bytes.now v → result ≡ fixed_of v }
    {
        if self.kind() != FIXED {
            return None;
        }
        Some(Fixed(i64_at(self.bytes, 8)))
    }

    /// The number of a URID.
    pub fn urid(&self) -> Option<u32>
        ensures { (v : Value) → Spells self.now.bytes.now v → result ≡ urid_of v }
    {
        if self.kind() != URID {
            return None;
        }
        Some(u32_at(self.bytes, 8))
    }

    /// The text of a String, without its zero.
    pub fn text(&self) -> Option<&'a [u8]>
        ensures { (v : Value) → Spells self.now.bytes.now v → option_copied result ≡ text_of v }
    {
        if self.kind() != STRING {
            return None;
        }
        Some(without_zero(self.body()))
    }

    /// The atoms of a Tuple, in order.
    pub fn parts(&self) -> Option<AtomParts<'a>>
        ensures { (v : Value) → Spells self.now.bytes.now v → HoldsAtoms result (parts_in v) }
    {
        if self.kind() != TUPLE {
            return None;
        }
        Some(AtomParts::over(self.body()))
    }

    /// The properties of an Object, in order.
    pub fn properties(&self) -> Option<AtomProperties<'a>>
        ensures { (v : Value) → Spells self.now.bytes.now v → HoldsProperties result (properties_in v) }
    {
        if self.kind() != OBJECT {
            return None;
        }
        Some(AtomProperties::over(behind(self.body(), 8)))
    }
}
