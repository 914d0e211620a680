ghost use Rattle.std.specs.Prelude.{◌≡◌, [], ◌++◌, decimal, length, OnOk, OnErr, IfOk};

use crate::NoMemory;
use itoa::Buffer;
use std::alloc::Global;
use std::marker::Model;

/// A growing buffer of bytes. Contracts see it as the list of its bytes.
#[derive(Debug, Drop)]
pub struct Bytes {
    buffer: Vec<u8>,
}

impl Model for Bytes {
    ghost use Rattle.std.specs.Prelude.{List, ℕ};

    ghost Value = { List ℕ };

    ghost view = { λ bytes. bytes.buffer.items };
}

impl Bytes {
    /// No bytes yet. It takes no memory.
    pub fn new(alloc: Global) -> Self
        ensures { result ≡ [] }
    {
        Bytes {
            buffer: Vec::new(alloc),
        }
    }

    /// A buffer that holds these bytes.
    pub fn from_slice(alloc: Global, bytes: &[u8]) -> Result<Self, NoMemory>
        ensures { IfOk result (λ made. made ≡ bytes.now) }
    {
        let buffer = Vec::from_slice(alloc, bytes)?;
        Ok(Bytes { buffer })
    }

    /// Takes over the bytes of a vector.
    pub fn from_vec(buffer: Vec<u8>) -> Self
        ensures { result ≡ buffer.items }
    {
        Bytes { buffer }
    }

    /// Adds bytes at the end. A refusal leaves all as before.
    pub fn push_all(&mut self, more: &[u8]) -> Result<(), NoMemory>
        ensures ok { OnOk result (self.new ≡ self.old ++ more.now) }
        ensures err { OnErr result (self.new ≡ self.old) }
    {
        self.buffer.extend_from_slice(more)?;
        Ok(())
    }

    /// Adds the characters of a text at the end. A refusal leaves all as before.
    pub fn push_str(&mut self, text: &str) -> Result<(), NoMemory>
        ensures ok { OnOk result (self.new ≡ self.old ++ text.now) }
        ensures err { OnErr result (self.new ≡ self.old) }
    {
        self.push_all(text.as_bytes())
    }

    /// Adds the digits of a number at the end, with no zero before them. A refusal leaves all as before.
    pub fn push_decimal(&mut self, number: u64) -> Result<(), NoMemory>
        ensures ok { OnOk result (self.new ≡ self.old ++ decimal number) }
        ensures err { OnErr result (self.new ≡ self.old) }
    {
        let mut digits = Buffer::new();
        self.push_str(digits.format(number))
    }

    /// Leaves no bytes, and keeps the memory.
    pub fn clear(&mut self)
        ensures { self.new ≡ [] }
    {
        self.buffer.clear();
    }

    pub fn as_slice(&self) -> &[u8]
        ensures { result.now ≡ self.now }
    {
        self.buffer.as_slice()
    }

    pub fn len(&self) -> usize
        ensures { result ≡ length self.now }
    {
        self.buffer.len()
    }
}
