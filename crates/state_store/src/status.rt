/// It was done.
pub const SUCCESS: u8 = 0;
/// The key or the type has no number, or the value isn't of the type that was asked for.
pub const BAD_TYPE: u8 = 2;
/// The flags aren't those of a value that may be kept in a file.
pub const BAD_FLAGS: u8 = 3;
/// There is no property with the key.
pub const NO_PROPERTY: u8 = 5;
/// The shelf has no room for it.
pub const NO_SPACE: u8 = 6;

/// The most properties on a shelf.
pub const MOST_PROPERTIES: usize = 256;
/// The most bytes that the values on a shelf have together.
pub const MOST_BYTES: usize = 65536;
