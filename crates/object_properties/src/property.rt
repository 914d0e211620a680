/// A property of an object: the number of its key, and its atom as the number of its type and the bytes of its body.
#[derive(Clone, Copy)]
pub struct Property<'a> {
    pub key: u32,
    pub kind: u32,
    pub body: &'a [u8],
}
