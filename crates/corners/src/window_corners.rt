//! The corners of rectangles in a window.

ghost use Rattle.std.specs.Prelude.{◌≡◌, ℕ, ◌+◌, ◌*◌, ◌≤◌, ℤ, ◌+ℤ◌, ◌&&◌, int_lt, IfOk, OnOk, All, length};
ghost use Rattle.opc_base.specs.Lanes.{AddUpNear};
ghost use Rattle.opc_base.specs.Corners.{point_sum, quadrant_sum, sign_at};
ghost use Rattle.opc_base.specs.Plane.{HaveNoOverlap, IsRectWithin, cover, indicator, rect_cover};
ghost use Rattle.corners.specs.Points.{AreCornersFrom, quadrants};
ghost use Rattle.signed_points.specs.Points.{IsAscending, IsSigned, SignsWithin};
ghost use Rattle.corners.specs.Windows.{AreInRows, IsCornerIn, LieWithin, Shows, clip, in_window};

use crate::points::push_points;
use opc_base::{Corner, NoMemory, Rect};
use signed_points::{Point, merge_points};
use std::alloc::Global;

/// The corners of the pixels that the rectangles cover in the window: by rows from the lowest, each from the left, each
/// lattice point once, and none with sign 0.
///
/// The rectangles do not overlap; sides that are not in order cover nothing.
pub fn corners_of(alloc: Global, rects: &[Rect], window: Rect) -> Result<Vec<Corner>, NoMemory>
    requires apart { HaveNoOverlap rects.now }
    requires rects { All (IsRectWithin 1060000) rects.now }
    requires window { IsRectWithin 1060000 window }
    ensures rows { IfOk result (λ corners. AreInRows corners.items) }

    // a sign from -2 to 2 that is not 0, within the window
    ensures each { IfOk result (λ corners. All (IsCornerIn window) corners.items) }

    // however large the window is, no corner lies further out than some rectangle
    ensures within { IfOk result (λ corners. (most : ℕ) → All (IsRectWithin most) rects.now → LieWithin most corners.items) }

    // exactly the signs of the set in the window
    ensures signs { IfOk result (λ corners. (x y : ℤ) → point_sum corners.items x y ≡ sign_at (in_window window (cover rects.now)) x y) }
    ensures quadrants { IfOk result (λ corners. (x y : ℤ) → quadrant_sum corners.items x y ≡ indicator (in_window window (cover rects.now)) x y) }

    // so they add up to the rectangles within each reach that the window shows whole
    ensures near { IfOk result (λ corners. (reach : ℕ) (x y : ℤ) → Shows window reach x y → AddUpNear reach corners.items (cover rects.now) x y) }
    ensures few { IfOk result (λ corners. length corners.items ≤ 4 * length rects.now) }
{
    let mut points = Vec::new(alloc);
    for rect in rects {
        push_seen(&mut points, *rect, window)?;
    }
    points.sort_unstable();
    let merged = merge_points(alloc, &points)?;
    let corners = corners_from(alloc, &merged)?;
    Ok(corners)
}

/// Adds the points of what the window shows of a rectangle.
fn push_seen(points: &mut Vec<Point>, rect: Rect, window: Rect) -> Result<(), NoMemory>
    requires rect { IsRectWithin 1060000 rect }
    requires window { IsRectWithin 1060000 window }
    requires signs { SignsWithin 1 points.old.items }
    ensures signs { OnOk result (SignsWithin 1 points.new.items) }
    ensures sums { OnOk result ((y x : ℤ) → quadrants points.new.items y x ≡ quadrants points.old.items y x +ℤ indicator (rect_cover (clip window rect)) x y) }
    ensures few { OnOk result (length points.new.items ≤ length points.old.items + 4) }
{
    let seen = clipped(rect, window);
    if has_area(seen) {
        push_points(points, seen)?;
    }
    Ok(())
}

/// Whether the rectangle covers a pixel.
fn has_area(rect: Rect) -> bool
    ensures { result ≡ (int_lt rect.x0 rect.x1 && int_lt rect.y0 rect.y1) }
{
    rect.x0 < rect.x1 && rect.y0 < rect.y1
}

/// What the window shows of a rectangle.
fn clipped(rect: Rect, window: Rect) -> Rect
    requires rect { IsRectWithin 1060000 rect }
    requires window { IsRectWithin 1060000 window }
    ensures is { result ≡ clip window rect }
    ensures within { IsRectWithin 1060000 result }
{
    Rect {
        x0: rect.x0.max(window.x0),
        y0: rect.y0.max(window.y0),
        x1: rect.x1.min(window.x1),
        y1: rect.y1.min(window.y1),
    }
}

/// The points as corners.
fn corners_from(alloc: Global, points: &[Point]) -> Result<Vec<Corner>, NoMemory>
    requires { SignsWithin 2 points.now }
    ensures { IfOk result (λ corners. AreCornersFrom points.now corners.items) }
{
    let mut corners = Vec::new(alloc);
    for point in points {
        corners.push(Corner {
            x: point.place,
            y: point.line,
            sign: point.sign as i8,
        })?;
    }
    Ok(corners)
}
