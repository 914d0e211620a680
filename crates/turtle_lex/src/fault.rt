/// Why a text has no further token. After a fault a lexer answers the same fault again.
#[derive(Clone, Copy, Debug, PartialEq, Eq)]
pub enum LexFault {
    /// The bytes aren't UTF-8: the place of the first bad sequence.
    NotUtf8(usize),
    /// A quote or an IRI that is opened at this place meets the end before a byte that can't stand in it.
    Unclosed(usize),
    /// No token begins at this place, or what stands there can't stand in a quote, an IRI or an escape.
    BadByte(usize),
}
