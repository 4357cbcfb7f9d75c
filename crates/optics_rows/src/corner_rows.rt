//! The corners of two rectangles that overlap, and their region again.

ghost use Rattle.std.specs.Prelude.{◌≡◌, ℤ, All, IfOk};
ghost use Rattle.opc_base.specs.Plane.{IsRectWithin, cover};
ghost use Rattle.corners.specs.Windows.{in_window};
ghost use Rattle.rect_union.specs.CornerSets.{AreCornersOfSet, corner_set};

use crate::regions::{rect, region_of_rects};
use corners::corners_of;
use opc_base::{Corner, NoMemory, Rect, Region};
use rect_union::region_of;
use std::alloc::Global;
use std::test::Fail;

fn corner(x: i32, y: i32, sign: i8) -> Corner {
    Corner { x, y, sign }
}

/// The corners of what the window shows of the region.
fn corners_in(alloc: Global, region: &Region, window: Rect) -> Result<Vec<Corner>, NoMemory>
    requires region { All (IsRectWithin 1048000) region.now }
    requires window { IsRectWithin 1048000 window }
    ensures corners { IfOk result (λ corners. AreCornersOfSet corners.items) }
    ensures pixels { IfOk result (λ corners. (x y : ℤ) → corner_set corners.items x y ≡ in_window window (cover region.now) x y) }
{
    let corners = corners_of(alloc, region.rects(), window)?;
    Ok(corners)
}

/// What the window shows of the region, by way of its corners.
fn seen(alloc: Global, region: &Region, window: Rect) -> Result<Region, NoMemory>
    requires region { All (IsRectWithin 1048000) region.now }
    requires window { IsRectWithin 1048000 window }
    ensures { IfOk result (λ seen. (x y : ℤ) → cover seen x y ≡ in_window window (cover region.now) x y) }
{
    let corners = corners_in(alloc, region, window)?;
    let seen = region_of(alloc, &corners)?;
    Ok(seen)
}

#[test]
fn corners_of_an_overlap(rt: HostRuntime) -> Result<(), Fail> {
    let region = region_of_rects(rt.alloc(), &[rect(0, 0, 10, 4), rect(5, 2, 12, 8)])?;
    let corners = corners_in(rt.alloc(), &region, rect(-50, -50, 50, 50))?;
    let wanted = [
        corner(0, 0, 1),
        corner(10, 0, -1),
        corner(10, 2, 1),
        corner(12, 2, -1),
        corner(0, 4, -1),
        corner(5, 4, 1),
        corner(5, 8, -1),
        corner(12, 8, 1),
    ];
    assert_eq!(rt; corners.as_slice(), wanted.as_slice());
    Ok(())
}

#[test]
fn corners_give_their_region_back(rt: HostRuntime) -> Result<(), Fail> {
    let region = region_of_rects(rt.alloc(), &[rect(0, 0, 10, 4), rect(5, 2, 12, 8)])?;
    let whole = seen(rt.alloc(), &region, rect(-50, -50, 50, 50))?;
    let wanted = [rect(0, 0, 10, 2), rect(0, 2, 12, 4), rect(5, 4, 12, 8)];
    assert_eq!(rt; whole.rects(), wanted.as_slice());
    let part = seen(rt.alloc(), &region, rect(3, 3, 11, 6))?;
    assert_eq!(rt;
        part.rects(),
        [rect(3, 3, 11, 4), rect(5, 4, 11, 6)].as_slice()
    );
    Ok(())
}
