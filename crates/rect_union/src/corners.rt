//! Regions that are given by signed corners.

ghost use Rattle.std.specs.Prelude.{◌≡◌, ◌≤◌, ℕ, ℤ, All, map, length, unsigned_abs, IfOk};
ghost use Rattle.opc_base.specs.Canonical.{AreCanonical, IsCanonical};
ghost use Rattle.opc_base.specs.Plane.{IsRectWithin, cover};
ghost use Rattle.rect_union.specs.CornerSets.{AreCornersOfSet, IsCornerWithin, corner_set};
ghost use Rattle.rect_union.specs.Corners.{HaveSmallSigns, corner_quadrant};

use crate::columns::Column;
use crate::cut::rects_of_quadrants;
use crate::quadrants::{Quadrant, sort_rows};
use opc_base::{Corner, NoMemory, Rect, Region};
use std::alloc::{AllocError, Global};

/// The canonical rectangles of the pixels at which the signs of the corners at or left of it and at or below it add up
/// to 1.
pub fn region_of(alloc: Global, corners: &[Corner]) -> Result<Region, NoMemory>
    requires corners { AreCornersOfSet corners.now }
    ensures canonical { IfOk result (IsCanonical (corner_set corners.now)) }
    ensures pixels { IfOk result (λ region. (x y : ℤ) → cover region x y ≡ corner_set corners.now x y) }
    ensures few { IfOk result (λ region. length region ≤ length corners.now) }
    ensures within { IfOk result (λ region. (most : ℕ) → most ≤ 1048576 → All (IsCornerWithin most) corners.now → All (IsRectWithin most) region) }
{
    Ok(Region::from_rects(corner_rects(alloc, corners)?))
}

fn corner_rects(alloc: Global, corners: &[Corner]) -> Result<Vec<Rect>, AllocError>
    requires corners { AreCornersOfSet corners.now }
    ensures canonical { IfOk result (λ rects. AreCanonical rects.items) }
    ensures pixels { IfOk result (λ rects. (x y : ℤ) → cover rects.items x y ≡ corner_set corners.now x y) }
{
    let mut quadrants = corner_quadrants(alloc, corners)?;
    sort_rows(&mut quadrants);
    let rects = rects_of_quadrants(alloc, 1, &quadrants)?;
    Ok(rects)
}

/// The quadrants of the corners, of one owner.
pub fn corner_quadrants(alloc: Global, corners: &[Corner]) -> Result<Vec<Quadrant>, AllocError>
    ensures quadrants { IfOk result (λ quadrants. quadrants.items ≡ map corner_quadrant corners.now) }
    ensures small { IfOk result (λ _. HaveSmallSigns corners.now) }
{
    let mut quadrants = Vec::new(alloc);
    for corner in corners {
        quadrants.push(corner_quadrant(corner))?;
    }
    Ok(quadrants)
}

fn corner_quadrant(corner: &Corner) -> Quadrant
    ensures quadrant { result ≡ corner_quadrant corner.now }
    ensures small { unsigned_abs corner.now.sign ≤ 128 }
{
    Quadrant {
        y: corner.y,
        column: Column {
            x: corner.x,
            owner: 0,
            sign: i128::from(corner.sign),
        },
    }
}
