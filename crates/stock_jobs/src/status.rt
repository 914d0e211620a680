/// The attempt was taken.
pub const SUCCESS: u8 = 0;

/// The call did nothing.
pub const UNKNOWN: u8 = 1;

/// The queue had no space for the attempt.
pub const NO_SPACE: u8 = 2;
