/// Why a quote or an IRI isn't read to its end.
#[derive(Clone, Copy)]
pub enum Stop {
    /// The text ends first.
    Unclosed,
    /// The character at this place can't stand there.
    Bad(usize),
}
