//! The union of rectangles by one sweep over all of them.
//!
//! Where many overlap in few rows and columns nothing is faster, since all sides that stand in one column are one there.
//! Where the set has too many corners, as that of bars across bars, the lowest rows tell.

ghost use Rattle.std.specs.Prelude.{◌≡◌, ℤ, IfOk};
ghost use Rattle.opc_base.specs.Canonical.{AreCanonical};
ghost use Rattle.opc_base.specs.Cover.{AreRectangles};
ghost use Rattle.opc_base.specs.Plane.{cover};
ghost use Rattle.opc_base.specs.Target.{HasMoreCornersThan};
ghost use Rattle.rect_union.specs.Sweeps.{IfSwept, IfTooMany};

use crate::outlines::add_path;
use crate::quadrants::sort_rows;
use crate::sweep::{SweepEnd, region_within};
use opc_base::Rect;
use std::alloc::{AllocError, Global};

/// The rows of such a sweep have at most so many columns for each quadrant, and for each corner that the set may have.
const COLUMNS_FOR_EACH: usize = 16;

/// How the sweep comes out: it is given up where its rows have very many columns.
pub fn swept_at_once(alloc: Global, rects: &[Rect], most: usize) -> Result<SweepEnd, AllocError>
    requires placed { AreRectangles rects.now }
    ensures canonical { IfOk result (λ end. IfSwept end AreCanonical) }
    ensures pixels { IfOk result (λ end. IfSwept end (λ swept. (x y : ℤ) → cover swept x y ≡ cover rects.now x y)) }
    ensures stopped { IfOk result (λ end. IfTooMany end (HasMoreCornersThan most (cover rects.now))) }
{
    let mut quadrants = Vec::new(alloc);
    add_path(&mut quadrants, 0, rects)?;
    sort_rows(&mut quadrants);
    let size = quadrants.len().saturating_add(most);
    let columns = size.saturating_mul(COLUMNS_FOR_EACH);
    let end = region_within(alloc, 1, &quadrants, most, columns)?;
    Ok(end)
}
