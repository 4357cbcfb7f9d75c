//! The squares, and what their edges sweep.
ghost use Rattle.std.specs.Prelude.{◌≡◌, ◌≤◌, true, unsigned_abs, All, IfOk, length};
ghost use Rattle.opc_base.specs.Plane.{IsOrdered, IsRectWithin};
ghost use Rattle.opc_parallel.specs.Conditions.{IsSweepable};

use geometry_rows::fault::RowFault;
use geometry_rows::moving::Moving;
use geometry_rows::shapes::Shapes;
use opc_base::{CutRules, MaskRules, Rect, Region, Swept};
use std::alloc::Global;

/// Edges stay whole up to 109 pixels.
const CUT: CutRules = CutRules {
    piece: 100,
    corner_out: 5,
    corner_in: 5,
    line_end: 10,
};

/// Runs have at least two pixels.
const MASK: MaskRules = MaskRules {
    width: 2,
    space: 2,
    max_in: 8,
    max_out: 16,
};

/// No layout has more squares: 32,768 fragments.
const MOST: u32 = 8192;

/// The edges of so many squares.
pub fn edges(alloc: Global, count: u32) -> Result<Moving, RowFault> {
    let region = squares(alloc, count)?;
    Moving::of_target(alloc, &region, &CUT, MASK)
}

/// So many squares of ten pixels, in rows of 128 with gaps of 20 pixels.
fn squares(alloc: Global, count: u32) -> Result<Region, RowFault>
    ensures { IfOk result (All (IsRectWithin 1048000)) }
{
    let mut shapes = Shapes::new(alloc);
    for k in 0..count.min(MOST) {
        shapes.add_rect(alloc, square(k))?;
    }
    shapes.union(alloc)
}

fn square(k: u32) -> Rect {
    let x = (k % 128 * 30) as i32;
    let y = (k / 128 % 64 * 30) as i32;
    Rect {
        x0: x,
        y0: y,
        x1: x + 10,
        y1: y + 10,
    }
}

/// What each fragment sweeps where it alone moves outward by one pixel.
pub fn moves(alloc: Global, moving: &Moving) -> Result<Vec<Swept>, RowFault>
    ensures sweepable { IfOk result (λ list. All IsSweepable list.items) }
    ensures few { IfOk result (λ list. length list.items ≤ 32768) }
{
    let mut list = Vec::new(alloc);
    for i in 0..moving.fragments().count() {
        list.push(swept_by(moving, i)?)?;
    }
    Ok(list)
}

/// What fragment `i` sweeps where it moves outward by one pixel.
fn swept_by(moving: &Moving, i: u32) -> Result<Swept, RowFault>
    ensures { IfOk result IsSweepable }
{
    let Some(swept) = moving.swept(i, 1)? else {
        return Err(RowFault::NoFragment);
    };
    if is_sweepable(&swept) {
        Ok(swept)
    } else {
        Err(RowFault::NoFragment)
    }
}

fn is_sweepable(swept: &Swept) -> bool
    ensures { result ≡ true → IsSweepable swept.now }
{
    swept.sign.unsigned_abs() == 1 && is_ordered(&swept.rect) && is_near(&swept.rect)
}

fn is_ordered(rect: &Rect) -> bool
    ensures { result ≡ true → IsOrdered rect.now }
{
    rect.x0 <= rect.x1 && rect.y0 <= rect.y1
}

fn is_near(rect: &Rect) -> bool
    ensures { result ≡ true → IsRectWithin 1050000 rect.now }
{
    is_within(rect.x0) && is_within(rect.x1) && is_within(rect.y0) && is_within(rect.y1)
}

fn is_within(place: i32) -> bool
    ensures { result ≡ true → unsigned_abs place ≤ 1050000 }
{
    place.unsigned_abs() <= 1_050_000
}
