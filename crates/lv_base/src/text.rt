ghost use Rattle.std.specs.Prelude.{◌≡◌, List, IsUtf8, IfOk, IfErr, nat_eq, Some};
ghost use Rattle.std.specs.Ordering.{nat_cmp};
ghost use Rattle.std.specs.String.{string_bytes};
ghost use Rattle.std.specs.Hash as fed;
ghost use Rattle.std.specs.Cmp;
ghost use Rattle.std.specs.Cmp.Lexicographic.{pointwise, slice_cmp, nat_list_eq_equiv, nat_list_cmp_total, texts_ties, texts_po};
ghost use Rattle.std.proofs.Common.{refl, rules};
ghost use Rattle.std.specs.Cmp.Rules.{hashing};
ghost use Rattle.lv_base.specs.Text.{IsRefused};

use crate::NoMemory;
use std::alloc::{AllocError, Global};
use std::cmp::Ordering;
use std::fmt;
use std::hash::{Hash, Hasher};
use std::marker::Model;
use std::sync::ArcStr;

/// A text in UTF-8 that doesn't change, shared by its copies. Contracts see it as the list of its bytes.
#[derive(Drop)]
pub struct Text {
    shared: ArcStr,
}

impl Model for Text {
    ghost use Rattle.std.specs.Prelude.{List, ℕ};
    ghost use Rattle.std.specs.Arc.{arc_str_bytes};

    ghost Value = { List ℕ };

    ghost view = { λ text. arc_str_bytes text.shared };
}

/// Why bytes make no `Text`.
#[derive(Clone, Copy)]
pub enum TextFault {
    /// The bytes aren't UTF-8 from this place on, the first byte of the first bad sequence.
    NotUtf8(usize),
    NoMemory,
}

impl Text {
    /// The text of these bytes, if they are UTF-8.
    pub fn from_bytes(alloc: Global, bytes: &[u8]) -> Result<Self, TextFault>
        ensures ok { IfOk result (λ text. text ≡ bytes.now) }
        ensures utf8 { IfOk result (λ _. IsUtf8 bytes.now) }
        ensures err { IfErr result (IsRefused bytes.now) }
    {
        match simdutf8::compat::from_utf8(bytes) {
            Ok(text) => match Text::from_str(alloc, text) {
                Ok(text) => Ok(text),
                Err(NoMemory) => Err(TextFault::NoMemory),
            },
            Err(fault) => Err(TextFault::NotUtf8(fault.valid_up_to())),
        }
    }

    /// A `Text` of its own with these characters.
    pub fn from_str(alloc: Global, text: &str) -> Result<Self, NoMemory>
        ensures { IfOk result (λ made. made ≡ text.now) }
    {
        let shared = ArcStr::from_str(alloc, text)?;
        Ok(Text { shared })
    }

    /// Takes over the characters of a string. It copies none of them.
    pub fn from_string(text: String) -> Result<Self, NoMemory>
        ensures { IfOk result (λ made. made ≡ string_bytes text) }
    {
        let shared = ArcStr::from_string(text)?;
        Ok(Text { shared })
    }

    pub fn as_bytes(&self) -> &[u8]
        ensures value { result.now ≡ self.now }
        ensures utf8 { IsUtf8 result.now }
    {
        self.as_str().as_bytes()
    }

    pub fn as_str(&self) -> &str
        ensures { result.now ≡ self.now }
    {
        self.shared.as_str()
    }
}

/// A copy shares the bytes: it costs a counter and no memory.
impl Clone for Text {
    ghost is_clone = { λ text copy. copy ≡ text };

    fn clone(&self) -> Result<Self, AllocError> {
        let shared = self.shared.clone()?;
        Ok(Text { shared })
    }
}

impl PartialEq for Text {
    ghost eq = { pointwise nat_eq };

    ghost laws = { Cmp.partial_equiv_from_equiv nat_list_eq_equiv };

    fn eq(&self, other: &Self) -> bool {
        self.as_str() == other.as_str()
    }
}

impl Eq for Text {
    ghost laws = { nat_list_eq_equiv };
}

/// Texts are in the order of their bytes.
impl PartialOrd for Text {
    ghost partial_cmp = { λ x y. Some (slice_cmp nat_cmp x y) };

    ghost laws = { texts_po };

    fn partial_cmp(&self, other: &Self) -> Option<Ordering> {
        Some(self.cmp(other))
    }
}

impl Ord for Text {
    ghost cmp = { slice_cmp nat_cmp };

    ghost total = { nat_list_cmp_total };

    ghost matches_partial_cmp = { λ x y. refl };

    ghost matches_eq = { texts_ties };

    fn cmp(&self, other: &Self) -> Ordering {
        self.as_str().cmp(other.as_str())
    }
}

impl Hash for Text {
    ghost hash_input = { fed.str };

    ghost respects_eq = { Prim.search (hashing, rules) };

    fn hash<H: Hasher>(&self, state: &mut H) {
        self.as_str().hash(state);
    }
}

impl fmt::Display for Text {
    ghost output = { λ text. Some text };

    fn fmt<W: fmt::Write>(&self, f: &mut fmt::Formatter<W>) -> fmt::Result {
        let text = self.as_str();
        f.pad(text)
    }
}

impl fmt::Debug for Text {
    fn fmt<W: fmt::Write>(&self, f: &mut fmt::Formatter<W>) -> fmt::Result {
        let text = self.as_str();
        fmt::Debug::fmt(&text, f)
    }
}
