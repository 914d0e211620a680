//! The numbers of the words that the messages are made of.

/// patch:Get, patch:Set and patch:Put: the types of the messages.
pub const GET: u32 = 15;

pub const SET: u32 = 16;

pub const PUT: u32 = 17;

/// patch:property, patch:value, patch:subject and patch:body: the keys of their properties.
pub const PROPERTY: u32 = 18;

pub const VALUE: u32 = 19;

pub const SUBJECT: u32 = 20;

pub const BODY: u32 = 21;
