//! The numbers of the types that have readers of their own.

pub const INT: u32 = 1;

pub const LONG: u32 = 2;

pub const URID: u32 = 4;

pub const STRING: u32 = 5;

pub const TUPLE: u32 = 8;

pub const OBJECT: u32 = 9;

pub const SEQUENCE: u32 = 10;

pub const FIXED: u32 = 14;
