//! Lists of pixels.
ghost use Rattle.std.specs.Prelude.{◌≡◌};

use crate::Pix;
use std::marker::Model;

/// A list of pixels.
#[derive(Debug, Drop)]
pub struct Pixes {
    items: Vec<Pix>,
}

impl Model for Pixes {
    ghost use Rattle.std.specs.Prelude.{List};
    ghost use Rattle.opc_base.specs.declared.plane.Pix.{Pix};

    ghost Value = { List Pix };

    ghost view = { λ l. l.items.items };
}

impl Pixes {
    /// The pixels of this list.
    pub fn from_vec(items: Vec<Pix>) -> Self
        ensures list { result ≡ items.items }
    {
        Pixes { items }
    }

    /// Lends the list.
    pub fn as_slice(&self) -> &[Pix]
        ensures list { result.now ≡ self.now }
    {
        self.items.as_slice()
    }
}
