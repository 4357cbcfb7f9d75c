//! Placed shapes.
ghost use Rattle.std.specs.Prelude.{◌≡◌, All};
ghost use Rattle.opc_base.specs.Cover.{IsPlaced};

use crate::{Pixes, Rects};
use std::marker::Model;

/// A placed shape, in pixels: a polygon by its points, the first one again at the end, or a path by the rectangles of
/// its segments.
#[derive(Debug, Drop)]
pub enum Outline {
    Polygon(Pixes),
    Path(Rects),
}

/// The placed shapes of a layer, in the order in which they were placed. Coordinates are within 1,048,000 of 0.
#[derive(Debug, Drop)]
pub struct Placed {
    outlines: Vec<Outline>,
}

impl Model for Placed {
    ghost use Rattle.std.specs.Prelude.{List, All};
    ghost use Rattle.opc_base.specs.declared.outline.Outline.{Outline};
    ghost use Rattle.opc_base.specs.Cover.{IsPlaced};

    ghost Value = { List Outline };

    ghost view = { λ p. p.outlines.items };

    ghost invariant = { λ p. All IsPlaced p.outlines.items };
}

impl Placed {
    /// The list of these outlines.
    pub fn from_outlines(outlines: Vec<Outline>) -> Self
        requires placed { All IsPlaced outlines.items }
        ensures list { result ≡ outlines.items }
    {
        Placed { outlines }
    }

    /// Lends the list.
    pub fn outlines(&self) -> &[Outline]
        ensures list { result.now ≡ self.now }
        ensures placed { All IsPlaced self.now }
    {
        self.outlines.as_slice()
    }
}
