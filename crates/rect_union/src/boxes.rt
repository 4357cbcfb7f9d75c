//! Polygons that are rectangles.

ghost use Rattle.std.specs.Prelude.{◌≡◌, ℤ, true, IfSome};
ghost use Rattle.std.specs.Int.{int_max, int_min};
ghost use Rattle.opc_base.specs.Canonical.{IsSolid};
ghost use Rattle.opc_base.specs.Cover.{IsPolygon};
ghost use Rattle.opc_base.specs.Plane.{IsRectWithin};
ghost use Rattle.rect_union.specs.Boxes.{AreOpposite, CoversWalk};

use opc_base::{Pix, Rect};

/// The rectangle that these points walk round once, if they do.
pub fn box_of(points: &[Pix]) -> Option<Rect>
    requires polygon { IsPolygon points.now }
    ensures solid { IfSome result IsSolid }
    ensures within { IfSome result (IsRectWithin 1048000) }
    ensures pixels { IfSome result (CoversWalk points.now) }
{
    if points.len() != 5 {
        return None;
    }
    if !are_opposite(points[0], points[2]) || points[1].x == points[3].x {
        return None;
    }
    Some(rect_between(points[0], points[2]))
}

/// Whether two points differ in both coordinates.
fn are_opposite(first: Pix, second: Pix) -> bool
    ensures { result ≡ true → AreOpposite first second }
{
    first.x != second.x && first.y != second.y
}

/// The rectangle with these points at two corners across from one another.
fn rect_between(first: Pix, second: Pix) -> Rect
    ensures left { result.x0 ≡ int_min first.x second.x }
    ensures low { result.y0 ≡ int_min first.y second.y }
    ensures right { result.x1 ≡ int_max first.x second.x }
    ensures high { result.y1 ≡ int_max first.y second.y }
{
    Rect {
        x0: first.x.min(second.x),
        y0: first.y.min(second.y),
        x1: first.x.max(second.x),
        y1: first.y.max(second.y),
    }
}
