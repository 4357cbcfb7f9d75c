//! Placed shapes in pixels, or what is wrong with them.

ghost use Rattle.std.specs.Prelude.{◌≡◌, ◌^◌, ◌*ℤ◌, ◌≤ℤ◌, ◌⊎◌, ℤ, pos, Some, None, All, IfOk, IfErr, false, ◌||◌, map};
ghost use Rattle.std.specs.Ordering.{int_eq};
ghost use Rattle.std.specs.Int.RustNames.{int_div};
ghost use Rattle.std.specs.List.{list_any};
ghost use Rattle.opc_base.specs.Cover.{IsPlaced};
ghost use Rattle.opc_base.specs.declared.outline.Outline.TheVariants as outlines;
ghost use Rattle.gds_model.specs.declared.place_fault.PlaceFault.TheVariants as faults;
ghost use Rattle.gds_model.specs.Outlines.{outline_of, path_outline, pixel_at, pixels_in, placed_points, position_of};
ghost use Rattle.gds_model.specs.PathRects.{path_rects};
ghost use Rattle.gds_model.specs.PlaceFaults.{first_fault, is_closed, is_far, is_off, is_rectilinear, is_round, last_after, of_point, of_rect, path_fault, polygon_fault, rects_fault, shape_fault, wide_path_fault};
ghost use Rattle.gds_model.specs.Placement.{IsPositionWithin};
ghost use Rattle.gds_expand.specs.Forms.{form_in};
ghost use Rattle.gds_expand.specs.Placement.{placed};
ghost use Rattle.gds_expand.specs.Steps.{mapped};

use crate::path::path_rects;
use crate::placement::Placement;
use crate::walk::PlacedShape;
use gds_model::{DoubledRect, PathForm, PlaceFault, Position, Shape, ShapeKind};
use gds_records::Point;
use opc_base::{Outline, Pick, Pix, Pixes, Rect, Rects};
use std::alloc::{AllocError, Global};

/// The side of a pixel, in database units, or in halves of them.
#[derive(Clone, Copy, Debug)]
struct Side {
    length: i64,
    ghost positive: { pos 1 ≤ℤ length },
}

pub(crate) fn position_of(point: Point) -> Position
    ensures value { result ≡ position_of point }
    ensures near { IsPositionWithin (2 ^ 31) result }
{
    Position {
        x: i64::from(point.x),
        y: i64::from(point.y),
    }
}

/// Where the points of a shape lie.
fn place_points(
    alloc: Global,
    points: &[Point],
    placement: &Placement,
) -> Result<Vec<Position>, AllocError>
    requires near { IsPositionWithin (2 ^ 50) placement.now.shift }
    ensures value { IfOk result (λ positions. positions.items ≡ placed_points (placed placement.now) points.now) }
    ensures near { IfOk result (λ positions. All (IsPositionWithin (2 ^ 51)) positions.items) }
{
    let mut positions = Vec::with_capacity(alloc, points.len())?;
    for point in points {
        positions.push(placement.place(position_of(*point)))?;
    }
    Ok(positions)
}

fn last_after(first: Position, rest: &[Position]) -> Position
    ensures { result ≡ last_after first rest.now }
{
    match rest {
        [.., last] => *last,
        [] => first,
    }
}

fn is_closed(points: &[Position]) -> bool
    ensures { result ≡ is_closed points.now }
{
    match points {
        [first, rest @ ..] => *first == last_after(*first, rest),
        [] => false,
    }
}

fn is_along_axis(from: Position, to: Position) -> bool
    ensures { result ≡ (int_eq from.x to.x || int_eq from.y to.y) }
{
    from.x == to.x || from.y == to.y
}

fn is_rectilinear(points: &[Position]) -> bool
    ensures { result ≡ is_rectilinear points.now }
{
    let Some((first, rest)) = points.split_first() else {
        return true;
    };
    let mut before = *first;
    for point in rest {
        if !is_along_axis(before, *point) {
            return false;
        }
        before = *point;
    }
    true
}

fn is_round(form: &PathForm) -> bool
    ensures { result ≡ is_round form.now }
{
    form.ends != 0 && form.ends != 2 && form.ends != 4
}

fn is_off(side: &Side, n: i64) -> bool
    ensures { result ≡ is_off side.now.length n }
{
    n % side.length != 0
}

fn is_far(side: &Side, n: i64) -> bool
    ensures { result ≡ is_far side.now.length n }
{
    (n / side.length).unsigned_abs() > 1_048_000
}

fn is_point_off(side: &Side, point: &Position) -> bool
    ensures { result ≡ of_point (is_off side.now.length) point.now }
{
    is_off(side, point.x) || is_off(side, point.y)
}

fn is_point_far(side: &Side, point: &Position) -> bool
    ensures { result ≡ of_point (is_far side.now.length) point.now }
{
    is_far(side, point.x) || is_far(side, point.y)
}

fn lower_corner(rect: &DoubledRect) -> Position
    ensures { result ≡ record { x = rect.now.x0; y = rect.now.y0 } }
{
    Position {
        x: rect.x0,
        y: rect.y0,
    }
}

fn upper_corner(rect: &DoubledRect) -> Position
    ensures { result ≡ record { x = rect.now.x1; y = rect.now.y1 } }
{
    Position {
        x: rect.x1,
        y: rect.y1,
    }
}

fn is_rect_off(side: &Side, rect: &DoubledRect) -> bool
    ensures { result ≡ of_rect (is_off side.now.length) rect.now }
{
    is_point_off(side, &lower_corner(rect)) || is_point_off(side, &upper_corner(rect))
}

fn is_rect_far(side: &Side, rect: &DoubledRect) -> bool
    ensures { result ≡ of_rect (is_far side.now.length) rect.now }
{
    is_point_far(side, &lower_corner(rect)) || is_point_far(side, &upper_corner(rect))
}

fn is_some_point_off(side: &Side, points: &[Position]) -> bool
    ensures { result ≡ list_any (of_point (is_off side.now.length)) points.now }
{
    points.iter().any(|point| is_point_off(side, point))
}

fn is_some_point_far(side: &Side, points: &[Position]) -> bool
    ensures { result ≡ list_any (of_point (is_far side.now.length)) points.now }
{
    points.iter().any(|point| is_point_far(side, point))
}

fn is_some_rect_off(side: &Side, rects: &[DoubledRect]) -> bool
    ensures { result ≡ list_any (of_rect (is_off side.now.length)) rects.now }
{
    rects.iter().any(|rect| is_rect_off(side, rect))
}

fn is_some_rect_far(side: &Side, rects: &[DoubledRect]) -> bool
    ensures { result ≡ list_any (of_rect (is_far side.now.length)) rects.now }
{
    rects.iter().any(|rect| is_rect_far(side, rect))
}

/// What is wrong with a polygon.
fn polygon_fault(side: &Side, offset: usize, points: &[Position]) -> Option<PlaceFault>
    ensures { result ≡ polygon_fault side.now.length offset points.now }
{
    if !is_closed(points) {
        Some(PlaceFault::NotClosed { offset })
    } else if !is_rectilinear(points) {
        Some(PlaceFault::NotRectilinear { offset })
    } else if is_some_point_off(side, points) {
        Some(PlaceFault::OffGrid { offset })
    } else if is_some_point_far(side, points) {
        Some(PlaceFault::OutOfRange { offset })
    } else {
        None
    }
}

/// What is wrong with the rectangles of a path.
fn rects_fault(side: &Side, offset: usize, rects: &[DoubledRect]) -> Option<PlaceFault>
    ensures { result ≡ rects_fault side.now.length offset rects.now }
{
    if is_some_rect_off(side, rects) {
        Some(PlaceFault::OffGrid { offset })
    } else if is_some_rect_far(side, rects) {
        Some(PlaceFault::OutOfRange { offset })
    } else {
        None
    }
}

/// The quotient of two numbers that isn't far from 0.
fn quotient(n: i64, side: &Side) -> i32
    requires near { is_far side.now.length n ≡ false }
    ensures { result ≡ int_div n side.now.length }
{
    (n / side.length) as i32
}

/// The pixel at a point on the grid.
fn pixel_at(side: &Side, point: &Position) -> Pix
    requires near { of_point (is_far side.now.length) point.now ≡ false }
    ensures { result ≡ pixel_at side.now.length point.now }
{
    Pix {
        x: quotient(point.x, side),
        y: quotient(point.y, side),
    }
}

fn pixels(alloc: Global, side: &Side, points: &[Position]) -> Result<Vec<Pix>, AllocError>
    requires near { All (λ p. of_point (is_far side.now.length) p ≡ false) points.now }
    ensures { IfOk result (λ pixels. pixels.items ≡ map (pixel_at side.now.length) points.now) }
{
    let mut pixels = Vec::with_capacity(alloc, points.len())?;
    for point in points {
        pixels.push(pixel_at(side, point))?;
    }
    Ok(pixels)
}

/// The pixels of a rectangle whose corners are multiples of the pixels' side.
fn pixels_in(side: &Side, rect: &DoubledRect) -> Rect
    requires near { of_rect (is_far side.now.length) rect.now ≡ false }
    ensures { result ≡ pixels_in side.now.length rect.now }
{
    let lower = pixel_at(side, &lower_corner(rect));
    let upper = pixel_at(side, &upper_corner(rect));
    Rect {
        x0: lower.x,
        y0: lower.y,
        x1: upper.x,
        y1: upper.y,
    }
}

fn pixel_rects(alloc: Global, side: &Side, rects: &[DoubledRect]) -> Result<Vec<Rect>, AllocError>
    requires near { All (λ r. of_rect (is_far side.now.length) r ≡ false) rects.now }
    ensures { IfOk result (λ pixels. pixels.items ≡ map (pixels_in side.now.length) rects.now) }
{
    let mut pixels = Vec::with_capacity(alloc, rects.len())?;
    for rect in rects {
        pixels.push(pixels_in(side, rect))?;
    }
    Ok(pixels)
}

fn polygon(
    alloc: Global,
    side: &Side,
    offset: usize,
    points: &[Position],
) -> Result<Outline, PlaceFault>
    ensures right { IfOk result (λ outline. polygon_fault side.now.length offset points.now ≡ None) }
    ensures outline { IfOk result (λ outline. outline ≡ outlines.Polygon (map (pixel_at side.now.length) points.now)) }
    ensures placed { IfOk result IsPlaced }
    ensures wrong { IfErr result (λ fault. (fault ≡ faults.NoMemory) ⊎ (polygon_fault side.now.length offset points.now ≡ Some fault)) }
{
    match polygon_fault(side, offset, points) {
        Some(fault) => Err(fault),
        None => Ok(Outline::Polygon(Pixes::from_vec(pixels(alloc, side, points)?))),
    }
}

/// A path that has a width, on a grid of pixels whose side is given in halves of units.
fn wide_path(
    alloc: Global,
    side: &Side,
    offset: usize,
    form: &PathForm,
    points: &[Position],
) -> Result<Outline, PlaceFault>
    requires { All (IsPositionWithin (2 ^ 51)) points.now }
    ensures right { IfOk result (λ outline. wide_path_fault side.now.length offset form.now points.now ≡ None) }
    ensures outline { IfOk result (λ outline. outline ≡ outlines.Path (map (pixels_in side.now.length) (path_rects form.now points.now))) }
    ensures placed { IfOk result IsPlaced }
    ensures wrong { IfErr result (λ fault. (fault ≡ faults.NoMemory) ⊎ (wide_path_fault side.now.length offset form.now points.now ≡ Some fault)) }
{
    if !is_rectilinear(points) {
        return Err(PlaceFault::NotRectilinear { offset });
    }
    if is_round(form) {
        return Err(PlaceFault::RoundPath { offset });
    }
    let rects = path_rects(alloc, form, points)?;
    match rects_fault(side, offset, &rects) {
        Some(fault) => Err(fault),
        None => Ok(Outline::Path(Rects::from_vec(pixel_rects(alloc, side, &rects)?))),
    }
}

/// The side of a pixel of the chosen grid.
fn side_of(pick: &Pick) -> Side
    ensures { result.length ≡ pick.now.grid }
{
    Side {
        length: i64::from(pick.grid),
    }
}

/// That side in halves of units.
fn doubled_side_of(pick: &Pick) -> Side
    ensures { result.length ≡ pos 2 *ℤ pick.now.grid }
{
    Side {
        length: 2 * i64::from(pick.grid),
    }
}

fn has_no_width(form: &PathForm) -> bool
    ensures { result ≡ int_eq form.now.width (pos 0) }
{
    form.width == 0
}

/// A path on the chosen grid. One of no width has no rectangle.
fn path(
    alloc: Global,
    pick: &Pick,
    offset: usize,
    form: &PathForm,
    points: &[Position],
) -> Result<Outline, PlaceFault>
    requires { All (IsPositionWithin (2 ^ 51)) points.now }
    ensures right { IfOk result (λ outline. path_fault pick.now.grid offset form.now points.now ≡ None) }
    ensures outline { IfOk result (λ outline. outline ≡ path_outline pick.now.grid form.now points.now) }
    ensures placed { IfOk result IsPlaced }
    ensures wrong { IfErr result (λ fault. (fault ≡ faults.NoMemory) ⊎ (path_fault pick.now.grid offset form.now points.now ≡ Some fault)) }
{
    if has_no_width(form) {
        return Ok(Outline::Path(Rects::from_vec(Vec::new(alloc))));
    }
    wide_path(alloc, &doubled_side_of(pick), offset, form, points)
}

/// The form of a path, and none of a polygon.
fn form_in(kind: &ShapeKind) -> Option<PathForm>
    ensures { result ≡ form_in kind.now }
{
    match *kind {
        ShapeKind::Boundary | ShapeKind::Box => None,
        ShapeKind::Path {
            ends,
            width,
            begin,
            end,
        } => Some(PathForm {
            ends,
            width,
            begin,
            end,
        }),
    }
}

/// A placed shape in pixels of the chosen grid, or what is wrong with it.
pub(crate) fn outline_of(
    alloc: Global,
    pick: &Pick,
    placed: &PlacedShape,
) -> Result<Outline, PlaceFault>
    requires { IsPositionWithin (2 ^ 50) placed.now.placement.shift }
    ensures right { IfOk result (λ outline. shape_fault pick.now.grid (mapped placed.now) ≡ None) }
    ensures outline { IfOk result (λ outline. outline ≡ outline_of pick.now.grid (mapped placed.now)) }
    ensures placed { IfOk result IsPlaced }
    ensures wrong { IfErr result (λ fault. (fault ≡ faults.NoMemory) ⊎ (shape_fault pick.now.grid (mapped placed.now) ≡ Some fault)) }
{
    let shape = placed.shape;
    let points = place_points(alloc, shape.points.as_slice(), &placed.placement)?;
    match form_in(&shape.kind) {
        None => polygon(alloc, &side_of(pick), shape.offset, &points),
        Some(form) => path(alloc, pick, shape.offset, &form, &points),
    }
}

/// The placed shapes in pixels of the chosen grid, or what is wrong with the first wrong one.
pub(crate) fn outlines_of(
    alloc: Global,
    pick: &Pick,
    shapes: &[PlacedShape],
) -> Result<Vec<Outline>, PlaceFault>
    requires { All (λ x. IsPositionWithin (2 ^ 50) x.placement.shift) shapes.now }
    ensures right { IfOk result (λ list. first_fault pick.now.grid (map mapped shapes.now) ≡ None) }
    ensures outlines { IfOk result (λ list. list.items ≡ map (outline_of pick.now.grid) (map mapped shapes.now)) }
    ensures placed { IfOk result (λ list. All IsPlaced list.items) }
    ensures wrong { IfErr result (λ fault. (fault ≡ faults.NoMemory) ⊎ (first_fault pick.now.grid (map mapped shapes.now) ≡ Some fault)) }
{
    let mut outlines = Vec::with_capacity(alloc, shapes.len())?;
    for shape in shapes {
        outlines.push(outline_of(alloc, pick, shape)?)?;
    }
    Ok(outlines)
}
