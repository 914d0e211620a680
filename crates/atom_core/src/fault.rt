/// Why bytes aren't an atom: the first fault in order of place.
#[derive(Clone, Copy, Debug, PartialEq, Eq)]
pub enum AtomFault {
    /// There are fewer bytes than 8, or than 8 and the size of the outer atom. It stands before all others.
    Short,
    /// The header here has a size that its type or its container doesn't allow, the part that begins here has no room for its header, or
    /// the outer atom ends here and bytes follow.
    BadSize(usize),
    /// The text that begins here isn't UTF-8 without a zero byte, ended by one zero.
    BadText(usize),
    /// The byte here, of padding or of a sequence's unit, isn't zero.
    BadPad(usize),
    /// An atom stands in more than 16 containers.
    Depth,
}
