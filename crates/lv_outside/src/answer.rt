/// What a read of a file answers.
#[derive(Clone, Copy, PartialEq, Eq)]
pub enum Fetch {
    /// All its bytes.
    Got,
    /// There is no file at the path.
    Absent,
    /// The file has more bytes than were asked for at most.
    TooLong,
    /// The outside failed.
    Failed,
    /// Memory was refused.
    NoMemory,
}

/// What a write of a file, or of bytes to a sink, answers.
#[derive(Clone, Copy, PartialEq, Eq)]
pub enum Put {
    /// All bytes are written.
    Done,
    /// The outside failed.
    Failed,
}
