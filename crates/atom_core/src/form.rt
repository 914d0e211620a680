ghost use Rattle.std.specs.Prelude.{◌≡◌, ◌≤◌, ◌+◌, length};
ghost use Rattle.atom_core.specs.Form.{form_of, is_multiple, allows_size, lead_len, is_container};
ghost use Rattle.atom_core.specs.Place.{number_at};

use crate::number::u32_at;

/// What the body of an atom is made of, as its type says.
#[derive(Clone, Copy)]
pub enum Form {
    /// Any bytes.
    Any,
    /// Four bytes.
    Four,
    /// Eight bytes.
    Eight,
    /// UTF-8 without a zero byte, then one zero.
    Text,
    /// A datatype, a language, and a text.
    Literal,
    /// The size of an element, the type of an element, and elements.
    Vector,
    /// Atoms.
    Tuple,
    /// An id, a type, and properties: a key, a context and an atom.
    Object,
    /// A unit and a pad, and events: a time and an atom.
    Sequence,
}

/// The forms of the types by their numbers: Int is 1, Long 2, Bool 3, URID 4, String 5, Literal 6, Vector 7, Tuple 8, Object 9,
/// Sequence 10, Chunk 11, Float 12, Double 13, Fixed 14, URI 24 and Path 25.
pub const FORMS: [Form; 26] = [
    Form::Any,
    Form::Four,
    Form::Eight,
    Form::Four,
    Form::Four,
    Form::Text,
    Form::Literal,
    Form::Vector,
    Form::Tuple,
    Form::Object,
    Form::Sequence,
    Form::Any,
    Form::Four,
    Form::Eight,
    Form::Eight,
    Form::Any,
    Form::Any,
    Form::Any,
    Form::Any,
    Form::Any,
    Form::Any,
    Form::Any,
    Form::Any,
    Form::Any,
    Form::Text,
    Form::Text,
];

/// The form of a type.
#[tactic(auto, unfolding(crate::specs::Form::form_of))]
pub fn form_of(kind: u32) -> Form
    ensures { result ≡ form_of kind }
{
    let place = kind as usize;
    if place < FORMS.len() {
        FORMS[place]
    } else {
        Form::Any
    }
}

/// Whether so many bytes are elements of a size. Elements of no size are none.
fn is_multiple(bytes: usize, element: usize) -> bool
    ensures { result ≡ is_multiple bytes element }
{
    if element == 0 {
        bytes == 0
    } else {
        bytes % element == 0
    }
}

/// Whether the atom whose header is here may have its size.
pub fn allows_size(bytes: &[u8], at: usize, form: Form, size: usize) -> bool
    requires { at + 8 + size ≤ length bytes.now }
    ensures { result ≡ allows_size form size (number_at bytes.now (at + 8)) }
{
    match form {
        Form::Any | Form::Tuple => true,
        Form::Four => size == 4,
        Form::Eight => size == 8,
        Form::Text => size >= 1,
        Form::Literal => size >= 9,
        Form::Vector => size >= 8 && is_multiple(size - 8, u32_at(bytes, at + 8) as usize),
        Form::Object | Form::Sequence => size >= 8,
    }
}

/// Whether atoms of this form hold atoms.
pub fn is_container(form: Form) -> bool
    ensures { result ≡ is_container form }
{
    matches!(form, Form::Tuple | Form::Object | Form::Sequence)
}

/// How many bytes stand before a container's parts, and before the atom of each part.
pub fn lead_len(form: Form) -> usize
    ensures { result ≡ lead_len form }
{
    match form {
        Form::Object | Form::Sequence => 8,
        _ => 0,
    }
}
