/// How far a forge had come: how many bytes were finished, how many containers were open, and whether a key or an event waited.
#[derive(Clone, Copy)]
pub struct Mark {
    pub(crate) len: usize,
    pub(crate) levels: usize,
    pub(crate) waits: bool,
}
