//! Finds the edges of the pixels that rectangles cover.

ghost use Rattle.std.specs.Prelude.{◌≡◌, ◌<◌, ◌↔◌, ℕ, ℤ, IfOk, IsTrue, length};
ghost use Rattle.signed_points.specs.Points.{IsAscending, point_at};
ghost use Rattle.outline_model.specs.Edges.{AreEdges};
ghost use Rattle.edges.specs.Pairs.{ArePaired, HasPoint, IsAhead, IsAt, convex_at, side_at};
ghost use Rattle.opc_base.specs.Plane.{cover};
ghost use Rattle.edges.specs.Disjoint.{AreSolidAndApart};
ghost use Rattle.opc_base.specs.Runs.{IsCornerTouch};

use crate::rect_corners::find_corners;
use opc_base::{Rect, Side};
use outline_model::Edge;
use signed_points::Point;
use std::alloc::{AllocError, Global};

/// The edges of the pixels that the rectangles cover: the vertical ones by their lines from the left, then the horizontal
/// ones by their lines from below, on each line from the low end.
pub fn find_edges(alloc: Global, rects: &[Rect]) -> Result<Vec<Edge>, AllocError>
    requires disjoint { AreSolidAndApart rects.now }
    requires no_touch { (x y : ℤ) → ¬ IsCornerTouch (cover rects.now) x y }
    ensures { IfOk result (λ es. AreEdges (cover rects.now) es.items) }
{
    let columns = find_corners(alloc, rects, true)?;
    let rows = find_corners(alloc, rects, false)?;
    let mut edges = pair_corners(alloc, &columns, &rows, true)?;
    let mut level_edges = pair_corners(alloc, &rows, &columns, false)?;
    edges.append(&mut level_edges)?;
    Ok(edges)
}

/// The edges between each corner of even number and the next one. `others` are the same corners, as they are met along
/// the lines across.
fn pair_corners(
    alloc: Global,
    corners: &[Point],
    others: &[Point],
    upright: bool,
) -> Result<Vec<Edge>, AllocError>
    requires ascending { IsAscending others.now }
    requires shared { (k : ℕ) → k < length corners.now → HasPoint others.now (point_at corners.now k).place (point_at corners.now k).line }
    ensures { IfOk result (λ es. ArePaired upright corners.now others.now es.items) }
{
    let mut edges = Vec::new(alloc);
    for i in 0..corners.len() / 2 {
        let first = corners[i + i];
        let last = corners[i + i + 1];
        let opening = first.sign > 0;
        let low = position_of(others, first.place, first.line);
        let high = position_of(others, last.place, last.line);
        edges.push(Edge {
            side: side_of(upright, opening),
            line: first.line,
            lo: first.place,
            hi: last.place,
            low_convex: is_convex(opening, low),
            high_convex: is_convex(opening, high),
        })?;
    }
    Ok(edges)
}

/// The side of the set, on vertical or horizontal lines, where it is at greater coordinates or at lower ones.
fn side_of(upright: bool, opening: bool) -> Side
    ensures { result ≡ side_at upright opening }
{
    match (upright, opening) {
        (true, true) => Side::Left,
        (true, false) => Side::Right,
        (false, true) => Side::Down,
        (false, false) => Side::Up,
    }
}

/// The number of the corner at this place of this line.
fn position_of(corners: &[Point], line: i32, place: i32) -> usize
    requires ascending { IsAscending corners.now }
    requires present { HasPoint corners.now line place }
    ensures { IsAt corners.now line place result }
{
    let mut low = 0;
    let mut high = corners.len();
    while low < high {
        let middle = low + (high - low) / 2;
        let ahead = is_ahead(&corners[middle], line, place);
        if ahead {
            low = middle + 1;
        } else {
            high = middle;
        }
    }
    low
}

/// Whether the corner is met before this place of this line.
fn is_ahead(corner: &Point, line: i32, place: i32) -> bool
    ensures { IsTrue result ↔ IsAhead corner.now line place }
{
    corner.line < line || corner.line == line && corner.place < place
}

/// Whether the end of an edge is convex, whose corner has this number along the lines across.
fn is_convex(opening: bool, position: usize) -> bool
    ensures { result ≡ convex_at opening position }
{
    if opening {
        position % 2 == 0
    } else {
        position % 2 != 0
    }
}
