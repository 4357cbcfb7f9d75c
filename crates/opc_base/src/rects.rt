//! Lists of rectangles.
ghost use Rattle.std.specs.Prelude.{◌≡◌};

use crate::Rect;
use std::marker::Model;

/// A list of rectangles.
#[derive(Debug, Drop)]
pub struct Rects {
    items: Vec<Rect>,
}

impl Model for Rects {
    ghost use Rattle.std.specs.Prelude.{List};
    ghost use Rattle.opc_base.specs.declared.plane.Rect.{Rect};

    ghost Value = { List Rect };

    ghost view = { λ l. l.items.items };
}

impl Rects {
    /// The rectangles of this list.
    pub fn from_vec(items: Vec<Rect>) -> Self
        ensures list { result ≡ items.items }
    {
        Rects { items }
    }

    /// Lends the list.
    pub fn as_slice(&self) -> &[Rect]
        ensures list { result.now ≡ self.now }
    {
        self.items.as_slice()
    }
}
