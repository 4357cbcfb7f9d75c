//! The rectangles of a path (Stream Format Manual 6.0, PATH).

ghost use Rattle.std.specs.Prelude.{◌≡◌, ◌+◌, ◌*◌, ◌^◌, ◌<◌, ◌≤◌, ℤ, pos, unsigned_abs, All, IfOk};
ghost use Rattle.gds_model.specs.PathRects.{direction_of, end_extension, extension_before, full_width, has_area, is_repeated, is_straight, merged, path_rects, rects_through, segment_rect, straightened};
ghost use Rattle.gds_model.specs.Placement.{IsPositionWithin};

use gds_model::{Direction, DoubledRect, PathForm, Position};
use std::alloc::{AllocError, Global};

/// Whether the rectangle covers something.
fn has_area(rect: &DoubledRect) -> bool
    ensures { result ≡ has_area rect.now }
{
    rect.x0 < rect.x1 && rect.y0 < rect.y1
}

/// The direction of a segment along an axis.
fn direction_to(from: Position, to: Position) -> Direction
    ensures { result ≡ direction_of from to }
{
    if from.x < to.x {
        Direction::Right
    } else if to.x < from.x {
        Direction::Left
    } else if from.y < to.y {
        Direction::Up
    } else {
        Direction::Down
    }
}

fn is_repeated(point: Position, rest: &[Position]) -> bool
    ensures { result ≡ is_repeated point rest.now }
{
    match rest {
        [next, ..] => point == *next,
        [] => false,
    }
}

/// Makes consecutive equal points one.
fn merge(alloc: Global, points: &[Position]) -> Result<Vec<Position>, AllocError>
    ensures { IfOk result (λ left. left.items ≡ merged points.now) }
{
    let mut left = Vec::with_capacity(alloc, points.len())?;
    for (i, point) in points.iter().enumerate() {
        if !is_repeated(*point, &points[i + 1..]) {
            left.push(*point)?;
        }
    }
    Ok(left)
}

fn is_straight(before: Position, point: Position, rest: &[Position]) -> bool
    ensures { result ≡ is_straight before point rest.now }
{
    match rest {
        [next, ..] => direction_to(before, point) == direction_to(point, *next),
        [] => false,
    }
}

/// Takes away each point between two segments of the same direction.
fn straighten(alloc: Global, points: &[Position]) -> Result<Vec<Position>, AllocError>
    ensures { IfOk result (λ left. left.items ≡ straightened points.now) }
{
    let mut left = Vec::with_capacity(alloc, points.len())?;
    let Some((first, rest)) = points.split_first() else {
        return Ok(left);
    };
    left.push(*first)?;
    let mut before = *first;
    for (i, point) in rest.iter().enumerate() {
        if !is_straight(before, *point, &rest[i + 1..]) {
            left.push(*point)?;
        }
        before = *point;
    }
    Ok(left)
}

/// The width, which is twice its half.
fn full_width(form: &PathForm) -> i64
    ensures value { result ≡ full_width form.now }
    ensures bound { unsigned_abs result ≤ 2 ^ 31 }
{
    i64::from(form.width.unsigned_abs())
}

/// Twice the extension beyond an end of the path, whose own extension is given.
fn end_extension(form: &PathForm, own: i32) -> i64
    ensures value { result ≡ end_extension form.now own }
    ensures bound { unsigned_abs result ≤ 2 ^ 32 }
{
    match form.ends {
        2 => full_width(form),
        4 => 2 * i64::from(own),
        _ => 0,
    }
}

/// Twice the extension beyond a point that these points follow.
fn extension_before(form: &PathForm, rest: &[Position]) -> i64
    ensures value { result ≡ extension_before form.now rest.now }
    ensures bound { unsigned_abs result ≤ 2 ^ 32 }
{
    if rest.is_empty() {
        end_extension(form, form.end)
    } else {
        full_width(form)
    }
}

/// The rectangle of a segment, with twice the width and the extensions.
fn segment_rect(width: i64, from: Position, before: i64, to: Position, after: i64) -> DoubledRect
    requires from { IsPositionWithin (2 ^ 51) from }
    requires to { IsPositionWithin (2 ^ 51) to }
    requires width { unsigned_abs width ≤ 2 ^ 32 }
    requires before { unsigned_abs before ≤ 2 ^ 32 }
    requires after { unsigned_abs after ≤ 2 ^ 32 }
    ensures { result ≡ segment_rect width from before to after }
{
    let (from_x, from_y) = (2 * from.x, 2 * from.y);
    let (to_x, to_y) = (2 * to.x, 2 * to.y);
    match direction_to(from, to) {
        Direction::Right => DoubledRect {
            x0: from_x - before,
            y0: from_y - width,
            x1: to_x + after,
            y1: from_y + width,
        },
        Direction::Left => DoubledRect {
            x0: to_x - after,
            y0: from_y - width,
            x1: from_x + before,
            y1: from_y + width,
        },
        Direction::Up => DoubledRect {
            x0: from_x - width,
            y0: from_y - before,
            x1: from_x + width,
            y1: to_y + after,
        },
        Direction::Down => DoubledRect {
            x0: from_x - width,
            y0: to_y - after,
            x1: from_x + width,
            y1: from_y + before,
        },
    }
}

/// The rectangles of the segments between corners, without those that have no area.
fn rects_through(
    alloc: Global,
    form: &PathForm,
    corners: &[Position],
) -> Result<Vec<DoubledRect>, AllocError>
    requires { All (IsPositionWithin (2 ^ 51)) corners.now }
    ensures { IfOk result (λ rects. rects.items ≡ rects_through form.now corners.now) }
{
    let mut rects = Vec::with_capacity(alloc, corners.len())?;
    let Some((first, rest)) = corners.split_first() else {
        return Ok(rects);
    };
    let width = full_width(form);
    let mut from = *first;
    let mut before = end_extension(form, form.begin);
    for (i, to) in rest.iter().enumerate() {
        let after = extension_before(form, &rest[i + 1..]);
        let rect = segment_rect(width, from, before, *to, after);
        if has_area(&rect) {
            rects.push(rect)?;
        }
        from = *to;
        before = width;
    }
    Ok(rects)
}

/// The rectangles of a path whose edges are horizontal or vertical.
pub(crate) fn path_rects(
    alloc: Global,
    form: &PathForm,
    points: &[Position],
) -> Result<Vec<DoubledRect>, AllocError>
    requires { All (IsPositionWithin (2 ^ 51)) points.now }
    ensures { IfOk result (λ rects. rects.items ≡ path_rects form.now points.now) }
{
    let merged = merge(alloc, points)?;
    let corners = straighten(alloc, &merged)?;
    rects_through(alloc, form, &corners)
}
