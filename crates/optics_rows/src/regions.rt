//! Regions of rectangles.

ghost use Rattle.std.specs.Prelude.{◌≡◌, ◌≤◌, true, All, IfOk, length, unsigned_abs};
ghost use Rattle.opc_base.specs.Canonical.{IsSolid};
ghost use Rattle.opc_base.specs.Cover.{AreRectangles, IsPlaced};
ghost use Rattle.opc_base.specs.Plane.{IsRectWithin};

use opc_base::{NoMemory, Outline, Placed, Rect, Rects, Region};
use rect_union::{UnionFault, union};
use std::alloc::Global;

/// The region that these rectangles cover together, without those that have no area or lie beyond the limit.
pub fn region_of_rects(alloc: Global, rects: &[Rect]) -> Result<Region, UnionFault>
    ensures few { IfOk result (λ region. length region ≤ 65536) }
    ensures within { IfOk result (All (IsRectWithin 1048000)) }
{
    union(alloc, &placed(alloc, rects)?)
}

/// The rectangles that have area and lie within the limit, as one placed shape.
fn placed(alloc: Global, rects: &[Rect]) -> Result<Placed, NoMemory> {
    let mut kept = Vec::new(alloc);
    for rect in rects {
        if is_placed(rect) {
            kept.push(*rect)?;
        }
    }
    let mut outlines = Vec::new(alloc);
    outlines.push(Outline::Path(Rects::from_vec(kept)))?;
    Ok(Placed::from_outlines(outlines))
}

/// Whether the rectangle has area and lies within the limit.
fn is_placed(rect: &Rect) -> bool
    ensures solid { result ≡ true → IsSolid rect.now }
    ensures within { result ≡ true → IsRectWithin 1048000 rect.now }
{
    rect.x0 < rect.x1
        && rect.y0 < rect.y1
        && is_within(rect.x0, rect.y0)
        && is_within(rect.x1, rect.y1)
}

fn is_within(x: i32, y: i32) -> bool
    ensures x { result ≡ true → unsigned_abs x ≤ 1048000 }
    ensures y { result ≡ true → unsigned_abs y ≤ 1048000 }
{
    x.unsigned_abs() <= 1_048_000 && y.unsigned_abs() <= 1_048_000
}

/// The rectangle between these corners.
pub fn rect(x0: i32, y0: i32, x1: i32, y1: i32) -> Rect
    ensures { result ≡ record { x0 = x0; y0 = y0; x1 = x1; y1 = y1 } }
{
    Rect { x0, y0, x1, y1 }
}
