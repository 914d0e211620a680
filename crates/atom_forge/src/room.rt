use std::error::Error;
use std::fmt;

/// A piece is larger than the space that is left. The forge is as before.
#[derive(Clone, Copy, Debug, PartialEq, Eq)]
pub struct NoRoom;

impl fmt::Display for NoRoom {
    fn fmt<W: fmt::Write>(&self, f: &mut fmt::Formatter<W>) -> fmt::Result {
        f.write_str("no room")
    }
}

impl Error for NoRoom {}
