/// Which of the rules on one port alone a port breaks.
#[derive(Clone, Copy)]
pub struct Breaches {
    /// It hasn't exactly one symbol.
    pub(crate) symbol: bool,
    /// It has no name.
    pub(crate) name: bool,
    /// It is neither an input nor an output.
    pub(crate) direction: bool,
    /// It is both.
    pub(crate) one_direction: bool,
    /// It has no supported class, and may not be left unconnected.
    pub(crate) class: bool,
    /// Its values, or its size, can't be read.
    pub(crate) value: bool,
}
