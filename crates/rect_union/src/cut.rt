//! Regions of many quadrants, swept strip by strip.
//!
//! Where many sides stand in a row, a sweep goes over all of them again at each row in which one begins or ends. A strip
//! of columns has few of both: each quadrant that begins outside of it is moved to the nearest side of the strip, which
//! keeps the order, and those that come to one point there are added up, and mostly cancel.

ghost use Rattle.std.specs.Prelude.{◌≡◌, ◌+◌, ◌<◌, ◌^◌, ◌<ℤ◌, ◌≤ℤ◌, ℤ, ◌&&◌, true, int_le, int_lt, unsigned_abs, All, IfOk, OnOk};
ghost use Rattle.opc_base.specs.Canonical.{AreCanonical};
ghost use Rattle.opc_base.specs.Plane.{cover};
ghost use Rattle.rect_union.specs.Cuts.{AddsQuadrant, AreInLimit, AreSwept, IsAtPlaceOf, IsCut, quadrant_in};
ghost use Rattle.rect_union.specs.Strips.{AreStrips};
ghost use Rattle.rect_union.specs.Quadrants.{AreInRows, is_wound, quadrant_weight};

use crate::columns::Column;
use crate::quadrants::Quadrant;
use crate::strips::{Strips, sort_starts};
use crate::sweep::region_of_quadrants;
use opc_base::Rect;
use std::alloc::{AllocError, Global};

/// Regions of no more quadrants than this are swept at once.
const SMALL: usize = 1024;

/// So many sides in a row for each quadrant, on the average of the rows, are swept at once.
const FEW_SIDES: usize = 64;

/// A full strip has about so many quadrants, or more where there would be too many full strips.
const IN_STRIP: usize = 256;

/// There are no more full strips than this. Left of them is an empty one, and right of them may be one with fewer quadrants.
const FULL_STRIPS: usize = 256;

/// Right of all quadrants that are within 1,048,576 of 0.
const RIGHT_OF_ALL: i32 = 1_048_577;

/// The canonical rectangles of the pixels round which the quadrants of some owner do not cancel.
pub fn rects_of_quadrants(
    alloc: Global,
    owners: usize,
    quadrants: &[Quadrant],
) -> Result<Vec<Rect>, AllocError>
    requires swept { AreSwept owners quadrants.now }
    requires near { AreInLimit 1048576 owners quadrants.now }
    ensures canonical { IfOk result (λ rects. AreCanonical rects.items) }
    ensures pixels { IfOk result (λ rects. (x y : ℤ) → cover rects.items x y ≡ is_wound owners quadrants.now x y) }
{
    if quadrants.len() <= SMALL || !are_many_in_rows(alloc, quadrants)? {
        return region_of_quadrants(alloc, owners, quadrants);
    }
    let borders = borders_of(alloc, quadrants)?;
    let rects = striped_quadrants(alloc, owners, quadrants, &borders)?;
    Ok(rects)
}

/// The same, swept from border to border.
fn striped_quadrants(
    alloc: Global,
    owners: usize,
    quadrants: &[Quadrant],
    borders: &[i32],
) -> Result<Vec<Rect>, AllocError>
    requires swept { AreSwept owners quadrants.now }
    requires near { AreInLimit 1048576 owners quadrants.now }
    ensures canonical { IfOk result (λ rects. AreCanonical rects.items) }
    ensures pixels { IfOk result (λ rects. (x y : ℤ) → cover rects.items x y ≡ is_wound owners quadrants.now x y) }
{
    let mut strips = Strips::new(alloc);
    for border in borders {
        add_strip(alloc, &mut strips, owners, quadrants, *border)?;
    }
    add_strip(alloc, &mut strips, owners, quadrants, RIGHT_OF_ALL)?;
    sort_starts(&mut strips.done);
    Ok(strips.done)
}

/// Adds what the quadrants wind round up to the border, if it is further right.
fn add_strip(
    alloc: Global,
    strips: &mut Strips,
    owners: usize,
    quadrants: &[Quadrant],
    border: i32,
) -> Result<(), AllocError>
    requires swept { AreSwept owners quadrants.now }
    requires near { AreInLimit 1048576 owners quadrants.now }
    requires so_far { AreStrips (is_wound owners quadrants.now) strips.old }
    ensures so_far { OnOk result (AreStrips (is_wound owners quadrants.now) strips.new) }
    ensures reached { OnOk result (border ≤ℤ strips.new.border) }
{
    if border <= strips.border {
        return Ok(());
    }
    let strip = strip_rects(alloc, owners, quadrants, strips.border, border)?;
    strips.widen(alloc, &strip, border)?;
    Ok(())
}

/// The canonical rectangles of what the quadrants wind round from the column `left` up to but not including `right`.
fn strip_rects(
    alloc: Global,
    owners: usize,
    quadrants: &[Quadrant],
    left: i32,
    right: i32,
) -> Result<Vec<Rect>, AllocError>
    requires swept { AreSwept owners quadrants.now }
    requires wide { left <ℤ right }
    ensures canonical { IfOk result (λ rects. AreCanonical rects.items) }
    ensures pixels { IfOk result (λ rects. (x y : ℤ) → cover rects.items x y ≡ (int_le left x && int_lt x right && is_wound owners quadrants.now x y)) }
{
    let seen = strip_quadrants(alloc, quadrants, left, right)?;
    let rects = region_of_quadrants(alloc, owners, &seen)?;
    Ok(rects)
}

/// The quadrants with each moved into the strip, and those that come to one place in turn made one.
fn strip_quadrants(
    alloc: Global,
    quadrants: &[Quadrant],
    left: i32,
    right: i32,
) -> Result<Vec<Quadrant>, AllocError>
    requires rows { AreInRows quadrants.now }
    requires small { quadrant_weight quadrants.now < 2 ^ 126 }
    ensures cut { IfOk result (λ seen. IsCut quadrants.now left right seen.items) }
{
    let mut seen = Vec::new(alloc);
    for quadrant in quadrants {
        push_quadrant(&mut seen, quadrant_in(quadrant, left, right))?;
    }
    Ok(seen)
}

fn quadrant_in(quadrant: &Quadrant, left: i32, right: i32) -> Quadrant
    ensures { result ≡ quadrant_in left right quadrant.now }
{
    Quadrant {
        y: quadrant.y,
        column: Column {
            x: quadrant.column.x.max(left).min(right),
            ..quadrant.column
        },
    }
}

/// Adds a quadrant at the end, together with the last one where that stands at the same place.
fn push_quadrant(quadrants: &mut Vec<Quadrant>, quadrant: Quadrant) -> Result<(), AllocError>
    requires small { quadrant_weight quadrants.old.items + unsigned_abs quadrant.column.sign < 2 ^ 126 }
    ensures added { OnOk result (AddsQuadrant quadrants.old.items quadrants.new.items quadrant) }
{
    match quadrants.pop() {
        Some(last) if share_place(&last, &quadrant) => {
            let sign = last.column.sign + quadrant.column.sign;
            if sign != 0 {
                quadrants.push(Quadrant {
                    y: last.y,
                    column: Column {
                        sign,
                        ..last.column
                    },
                })?;
            }
        }
        Some(last) => {
            quadrants.push(last)?;
            quadrants.push(quadrant)?;
        }
        None => quadrants.push(quadrant)?,
    }
    Ok(())
}

/// Whether both stand at one place and are of one owner.
fn share_place(first: &Quadrant, second: &Quadrant) -> bool
    ensures same { result ≡ true → IsAtPlaceOf first.now second.now }
{
    first.y == second.y
        && first.column.x == second.column.x
        && first.column.owner == second.column.owner
}

/// Whether a row has many sides, on the average of the rows in which one begins or ends.
fn are_many_in_rows(alloc: Global, quadrants: &[Quadrant]) -> Result<bool, AllocError> {
    let mut points = Vec::with_capacity(alloc, quadrants.len())?;
    for quadrant in quadrants {
        points.push((quadrant.column.x, quadrant.y))?;
    }
    points.sort_unstable();
    let mut ends = Vec::with_capacity(alloc, points.len())?;
    for (index, point) in points.iter().enumerate() {
        ends.push((point.1, index % 2 == 0))?;
    }
    ends.sort_unstable();
    Ok(sides_met(&ends) / FEW_SIDES > quadrants.len())
}

/// How many sides the rows have in which one begins or ends, given by row, and whether it begins.
fn sides_met(ends: &[(i32, bool)]) -> usize {
    let mut here: usize = 0;
    let mut met: usize = 0;
    let mut row = i32::MIN;
    for (y, begins) in ends {
        if *y != row {
            met = met.saturating_add(here);
            row = *y;
        }
        if *begins {
            here = here.saturating_add(1);
        } else {
            here = here.saturating_sub(1);
        }
    }
    met
}

/// Borders from the left, with equally many quadrants from each to the next, at most 257: the first stands at the first
/// quadrant, with nothing left of it.
fn borders_of(alloc: Global, quadrants: &[Quadrant]) -> Result<Vec<i32>, AllocError> {
    let mut columns = Vec::with_capacity(alloc, quadrants.len())?;
    for quadrant in quadrants {
        columns.push(quadrant.column.x)?;
    }
    columns.sort_unstable();
    let step = IN_STRIP.max(columns.len() / FULL_STRIPS);
    let borders = every(alloc, &columns, step)?;
    Ok(borders)
}

/// Each column whose index is a multiple of the step, which is not 0.
fn every(alloc: Global, columns: &[i32], step: usize) -> Result<Vec<i32>, AllocError>
    requires some { 0 < step }
{
    let mut kept = Vec::new(alloc);
    for (index, column) in columns.iter().enumerate() {
        if index % step == 0 {
            kept.push(*column)?;
        }
    }
    Ok(kept)
}
