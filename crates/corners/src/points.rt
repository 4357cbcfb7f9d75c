//! The signed points of a rectangle.

ghost use Rattle.std.specs.Prelude.{◌≡◌, ◌+◌, ℤ, ◌+ℤ◌, OnOk, length};
ghost use Rattle.opc_base.specs.Plane.{IsRectWithin, indicator, rect_cover};
ghost use Rattle.corners.specs.Points.{HasArea, quadrants};
ghost use Rattle.signed_points.specs.Points.{SignsWithin};

use opc_base::{NoMemory, Rect};
use signed_points::Point;

/// Adds the four signed points of a rectangle.
pub fn push_points(points: &mut Vec<Point>, rect: Rect) -> Result<(), NoMemory>
    requires area { HasArea rect }
    requires rect { IsRectWithin 1060000 rect }
    requires signs { SignsWithin 1 points.old.items }
    ensures signs { OnOk result (SignsWithin 1 points.new.items) }
    ensures sums { OnOk result ((y x : ℤ) → quadrants points.new.items y x ≡ quadrants points.old.items y x +ℤ indicator (rect_cover rect) x y) }
    ensures four { OnOk result (length points.new.items ≡ length points.old.items + 4) }
{
    points.push(Point {
        line: rect.y0,
        place: rect.x0,
        sign: 1,
    })?;
    points.push(Point {
        line: rect.y0,
        place: rect.x1,
        sign: -1,
    })?;
    points.push(Point {
        line: rect.y1,
        place: rect.x0,
        sign: -1,
    })?;
    points.push(Point {
        line: rect.y1,
        place: rect.x1,
        sign: 1,
    })?;
    Ok(())
}
