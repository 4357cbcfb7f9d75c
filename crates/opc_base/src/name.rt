//! Names that contracts see as lists of bytes.
ghost use Rattle.std.specs.Prelude.{◌≡◌};

use std::marker::Model;

/// The name of a structure, by its bytes.
#[derive(Clone, Debug, Drop)]
pub struct Name {
    bytes: Vec<u8>,
}

impl Model for Name {
    ghost use Rattle.std.specs.Prelude.{ℕ, List};

    ghost Value = { List ℕ };

    ghost view = { λ n. n.bytes.items };
}

impl Name {
    /// The name with these bytes.
    pub fn from_vec(items: Vec<u8>) -> Self
        ensures list { result ≡ items.items }
    {
        Name { bytes: items }
    }

    /// Lends the bytes.
    pub fn as_slice(&self) -> &[u8]
        ensures list { result.now ≡ self.now }
    {
        self.bytes.as_slice()
    }
}
