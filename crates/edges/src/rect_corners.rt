//! Finds the corners of the pixels that rectangles cover.

ghost use Rattle.std.specs.Prelude.{◌≡◌, ℤ, ◌+ℤ◌, IfOk, OnOk};
ghost use Rattle.edges.specs.Corners.{AreCorners, level, edge_change};
ghost use Rattle.signed_points.specs.Points.{SignsWithin};
ghost use Rattle.opc_base.specs.Plane.{cover};
ghost use Rattle.outline_model.specs.Edges.{seen};
ghost use Rattle.edges.specs.Disjoint.{AreSolidAndApart, IsSolidInLimit};

use opc_base::Rect;
use signed_points::{Point, merge_points};
use std::alloc::{AllocError, Global};

/// The corners of the pixels that the rectangles cover, in the order in which the vertical lines meet them, or else the
/// horizontal ones.
pub fn find_corners(alloc: Global, rects: &[Rect], upright: bool) -> Result<Vec<Point>, AllocError>
    requires { AreSolidAndApart rects.now }
    ensures { IfOk result (λ cs. AreCorners (seen upright (cover rects.now)) cs.items) }
{
    let mut points = Vec::new(alloc);
    for rect in rects {
        push_points(&mut points, rect, upright)?;
    }
    points.sort_unstable();
    merge_points(alloc, &points)
}

/// Adds the four corners of a rectangle.
fn push_points(points: &mut Vec<Point>, rect: &Rect, upright: bool) -> Result<(), AllocError>
    requires solid { IsSolidInLimit rect.now }
    requires signs { SignsWithin 1 points.old.items }
    ensures signs { OnOk result (SignsWithin 1 points.new.items) }
    ensures levels { OnOk result ((line place : ℤ) → level points.new.items line place ≡ level points.old.items line place +ℤ edge_change upright rect.now line place) }
{
    let (first_line, last_line, first_place, last_place) = if upright {
        (rect.x0, rect.x1, rect.y0, rect.y1)
    } else {
        (rect.y0, rect.y1, rect.x0, rect.x1)
    };
    points.push(Point {
        line: first_line,
        place: first_place,
        sign: 1,
    })?;
    points.push(Point {
        line: first_line,
        place: last_place,
        sign: -1,
    })?;
    points.push(Point {
        line: last_line,
        place: first_place,
        sign: -1,
    })?;
    points.push(Point {
        line: last_line,
        place: last_place,
        sign: 1,
    })?;
    Ok(())
}
