//! Bytes that contracts see as a list.
ghost use Rattle.std.specs.Prelude.{◌≡◌, ◌++◌, OnOk, OnErr};

use crate::NoMemory;
use std::marker::Model;

/// The bytes of a file, or of a part of one.
#[derive(Debug, Drop)]
pub struct Bytes {
    bytes: Vec<u8>,
}

impl Model for Bytes {
    ghost use Rattle.std.specs.Prelude.{ℕ, List};

    ghost Value = { List ℕ };

    ghost view = { λ b. b.bytes.items };
}

impl Bytes {
    /// The bytes of this list.
    pub fn from_vec(items: Vec<u8>) -> Self
        ensures list { result ≡ items.items }
    {
        Bytes { bytes: items }
    }

    /// Lends the list.
    pub fn as_slice(&self) -> &[u8]
        ensures list { result.now ≡ self.now }
    {
        self.bytes.as_slice()
    }

    /// Appends these bytes. After `NoMemory` the value is as it was.
    pub fn append(&mut self, more: &[u8]) -> Result<(), NoMemory>
        ensures appended { OnOk result (self.new ≡ self.old ++ more.now) }
        ensures unchanged { OnErr result (self.new ≡ self.old) }
    {
        self.bytes.extend_from_slice(more)?;
        Ok(())
    }

    /// Appends these bytes and then those, for which it takes memory once. After `NoMemory` the value is as it was.
    pub fn append_both(&mut self, first: &[u8], second: &[u8]) -> Result<(), NoMemory>
        ensures appended { OnOk result (self.new ≡ self.old ++ (first.now ++ second.now)) }
        ensures unchanged { OnErr result (self.new ≡ self.old) }
    {
        self.bytes.reserve(first.len() + second.len())?;
        self.bytes.extend_from_slice(first)?;
        self.bytes.extend_from_slice(second)?;
        Ok(())
    }
}
