//! The union of outlines by one sweep.

ghost use Rattle.std.specs.Prelude.{◌≡◌, ℤ, All, IfNone, IfOk, IfSome};
ghost use Rattle.opc_base.specs.Canonical.{AreCanonical};
ghost use Rattle.opc_base.specs.Cover.{IsPlaced};
ghost use Rattle.opc_base.specs.Plane.{IsRectWithin, cover};
ghost use Rattle.opc_base.specs.Target.{HasMoreCornersThan, target};

use crate::outlines::quadrants_of;
use crate::quadrants::sort_rows;
use crate::sweep::{region_of_quadrants, region_up_to};
use opc_base::{Outline, Rect};
use std::alloc::{AllocError, Global};

/// The canonical rectangles of the pixels that some outline covers.
pub fn swept_rects(alloc: Global, outlines: &[Outline]) -> Result<Vec<Rect>, AllocError>
    requires placed { All IsPlaced outlines.now }
    ensures canonical { IfOk result (λ rects. AreCanonical rects.items) }
    ensures within { IfOk result (λ rects. All (IsRectWithin 1048000) rects.items) }
    ensures pixels { IfOk result (λ rects. (x y : ℤ) → cover rects.items x y ≡ target outlines.now x y) }
{
    let mut quadrants = quadrants_of(alloc, outlines)?;
    sort_rows(&mut quadrants);
    let rects = region_of_quadrants(alloc, outlines.len(), &quadrants)?;
    Ok(rects)
}

/// The same, or none where they have more corners than `most`.
pub fn swept_up_to(
    alloc: Global,
    outlines: &[Outline],
    most: usize,
) -> Result<Option<Vec<Rect>>, AllocError>
    requires placed { All IsPlaced outlines.now }
    ensures canonical { IfOk result (λ found. IfSome found (λ rects. AreCanonical rects.items)) }
    ensures within { IfOk result (λ found. IfSome found (λ rects. All (IsRectWithin 1048000) rects.items)) }
    ensures pixels { IfOk result (λ found. IfSome found (λ rects. (x y : ℤ) → cover rects.items x y ≡ target outlines.now x y)) }
    ensures stopped { IfOk result (λ found. IfNone found (HasMoreCornersThan most (target outlines.now))) }
{
    let mut quadrants = quadrants_of(alloc, outlines)?;
    sort_rows(&mut quadrants);
    let found = region_up_to(alloc, outlines.len(), &quadrants, most)?;
    Ok(found)
}
