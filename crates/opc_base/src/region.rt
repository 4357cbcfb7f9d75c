//! Sets of pixels by their canonical rectangles.
ghost use Rattle.std.specs.Prelude.{◌≡◌, List};
ghost use Rattle.opc_base.specs.declared.plane.Rect.{Rect};
ghost use Rattle.opc_base.specs.Plane.{PixelSet, cover};
ghost use Rattle.opc_base.specs.Canonical.{AreCanonical, IsCanonical};

use crate::{Pix, Rect};
use std::marker::Model;

/// A set of pixels, kept as its canonical rectangles: each maximal covered run of a row, stacked over the rows above
/// that have the same run, sorted by (y0, x0). A set has one such list.
#[derive(Debug, Drop)]
pub struct Region {
    rects: Vec<Rect>,
}

impl Model for Region {
    ghost use Rattle.std.specs.Prelude.{List};
    ghost use Rattle.opc_base.specs.declared.plane.Rect.{Rect};
    ghost use Rattle.opc_base.specs.Canonical.{AreCanonical};

    ghost Value = { List Rect };

    ghost view = { λ r. r.rects.items };

    ghost invariant = { λ r. AreCanonical r.rects.items };
}

impl Region {
    /// The region with these rectangles. No more is asked of them than that they are the canonical list of some set.
    pub fn from_rects(rects: Vec<Rect>) -> Self
        requires canonical { AreCanonical rects.items }
        ensures list { result ≡ rects.items }
        ensures any_set { (inside : PixelSet) (others : List Rect) → IsCanonical inside others → AreCanonical others }
    {
        Region { rects }
    }

    /// Lends the list.
    pub fn rects(&self) -> &[Rect]
        ensures list { result.now ≡ self.now }
        ensures canonical { AreCanonical self.now }
        ensures stacks { IsCanonical (cover self.now) self.now }
        ensures one { (others : List Rect) → IsCanonical (cover self.now) others → others ≡ self.now }
    {
        self.rects.as_slice()
    }

    /// Whether a rectangle of the list covers the pixel.
    pub fn covers(&self, p: Pix) -> bool
        ensures covered { result ≡ cover self.now p.x p.y }
    {
        self.rects
            .iter()
            .any(|r| r.x0 <= p.x && p.x < r.x1 && r.y0 <= p.y && p.y < r.y1)
    }
}
