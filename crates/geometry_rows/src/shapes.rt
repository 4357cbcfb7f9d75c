//! Shapes, and the region that they cover together.
ghost use Rattle.std.specs.Prelude.{◌≡◌, ◌≤◌, true, unsigned_abs, All, IfOk};
ghost use Rattle.opc_base.specs.Canonical.{IsSolid};
ghost use Rattle.opc_base.specs.Cover.{AreRectangles, IsClosed, IsPlaced, IsPolygon, IsRectilinear, IsStraight};
ghost use Rattle.opc_base.specs.Plane.{IsPixWithin, IsRectWithin};

use crate::fault::RowFault;
use opc_base::{Outline, Pix, Pixes, Placed, Rect, Rects, Region};
use rect_union::union;
use std::alloc::Global;
use std::marker::Model;

/// Shapes one after another, in pixels.
#[derive(Debug, Drop)]
pub struct Shapes {
    outlines: Vec<Outline>,
}

impl Model for Shapes {
    ghost use Rattle.std.specs.Prelude.{List, All};
    ghost use Rattle.opc_base.specs.declared.outline.Outline.{Outline};
    ghost use Rattle.opc_base.specs.Cover.{IsPlaced};

    ghost Value = { List Outline };

    ghost view = { λ s. s.outlines.items };

    ghost invariant = { λ s. All IsPlaced s.outlines.items };
}

impl Shapes {
    /// No shapes.
    pub fn new(alloc: Global) -> Self {
        Shapes {
            outlines: Vec::new(alloc),
        }
    }

    /// Adds the polygon through these points, the first of which stands at the end again.
    pub fn add_polygon(&mut self, alloc: Global, points: &[(i32, i32)]) -> Result<(), RowFault> {
        let mut pixes = Vec::new(alloc);
        for (x, y) in points {
            pixes.push(Pix { x: *x, y: *y })?;
        }
        if !is_polygon(&pixes) {
            return Err(RowFault::NoShape);
        }
        self.outlines
            .push(Outline::Polygon(Pixes::from_vec(pixes)))?;
        Ok(())
    }

    /// Adds the path that covers these rectangles.
    pub fn add_path(&mut self, alloc: Global, rects: &[Rect]) -> Result<(), RowFault> {
        if !are_rectangles(rects) {
            return Err(RowFault::NoShape);
        }
        let rects = Rects::from_vec(rects.to_vec(alloc)?);
        self.outlines.push(Outline::Path(rects))?;
        Ok(())
    }

    /// Adds a rectangle.
    pub fn add_rect(&mut self, alloc: Global, rect: Rect) -> Result<(), RowFault> {
        self.add_path(alloc, &[rect])
    }

    /// The pixels that some shape covers.
    pub fn union(self, alloc: Global) -> Result<Region, RowFault>
        ensures { IfOk result (All (IsRectWithin 1048000)) }
    {
        let region = union(alloc, &Placed::from_outlines(self.outlines))?;
        Ok(region)
    }
}

/// The region of these rectangles.
pub fn region_of_rects(alloc: Global, rects: &[Rect]) -> Result<Region, RowFault>
    ensures { IfOk result (All (IsRectWithin 1048000)) }
{
    let mut shapes = Shapes::new(alloc);
    for rect in rects {
        shapes.add_rect(alloc, *rect)?;
    }
    shapes.union(alloc)
}

/// The region of these polygons.
pub fn region_of_polygons(alloc: Global, polygons: &[&[(i32, i32)]]) -> Result<Region, RowFault>
    ensures { IfOk result (All (IsRectWithin 1048000)) }
{
    let mut shapes = Shapes::new(alloc);
    for points in polygons {
        shapes.add_polygon(alloc, points)?;
    }
    shapes.union(alloc)
}

/// The rectangle with these left, low, right and high sides.
pub fn rect(x0: i32, y0: i32, x1: i32, y1: i32) -> Rect
    ensures { result ≡ record { x0 = x0; y0 = y0; x1 = x1; y1 = y1 } }
{
    Rect { x0, y0, x1, y1 }
}

fn are_rectangles(rects: &[Rect]) -> bool
    ensures { result ≡ true → AreRectangles rects.now }
{
    for rect in rects {
        if !is_rectangle(rect) {
            return false;
        }
    }
    true
}

fn is_rectangle(rect: &Rect) -> bool
    ensures solid { result ≡ true → IsSolid rect.now }
    ensures within { result ≡ true → IsRectWithin 1048000 rect.now }
{
    rect.x0 < rect.x1
        && rect.y0 < rect.y1
        && is_near(rect.x0)
        && is_near(rect.x1)
        && is_near(rect.y0)
        && is_near(rect.y1)
}

fn is_near(place: i32) -> bool
    ensures { result ≡ true → unsigned_abs place ≤ 1048000 }
{
    place.unsigned_abs() <= 1_048_000
}

fn is_polygon(points: &[Pix]) -> bool
    ensures { result ≡ true → IsPolygon points.now }
{
    is_closed(points) && are_straight(points) && are_within(points)
}

fn is_closed(points: &[Pix]) -> bool
    ensures { result ≡ true → IsClosed points.now }
{
    if points.len() == 0 {
        return false;
    }
    let first = points[0];
    let last = points[points.len() - 1];
    is_same(first, last)
}

fn is_same(first: Pix, second: Pix) -> bool
    ensures { result ≡ true → first ≡ second }
{
    first.x == second.x && first.y == second.y
}

fn are_straight(points: &[Pix]) -> bool
    ensures { result ≡ true → IsRectilinear points.now }
{
    for index in 1..points.len() {
        if !is_straight(points[index - 1], points[index]) {
            return false;
        }
    }
    true
}

fn is_straight(from: Pix, to: Pix) -> bool
    ensures { result ≡ true → IsStraight from to }
{
    from.x == to.x || from.y == to.y
}

fn are_within(points: &[Pix]) -> bool
    ensures { result ≡ true → All (IsPixWithin 1048000) points.now }
{
    for point in points {
        if !is_within(*point) {
            return false;
        }
    }
    true
}

fn is_within(point: Pix) -> bool
    ensures { result ≡ true → IsPixWithin 1048000 point }
{
    is_near(point.x) && is_near(point.y)
}
