//! The regions that are measured.
ghost use Rattle.std.specs.Prelude.{◌≡◌, ◌≤◌, All, IfOk};
ghost use Rattle.opc_base.specs.Plane.{IsRectWithin};
ghost use Rattle.bench_geometry.specs.Tower.{tower_row};

use geometry_rows::fault::RowFault;
use geometry_rows::shapes::{Shapes, rect};
use opc_base::{NoMemory, Rect, Region};
use std::alloc::Global;

/// No tower has more rectangles.
pub const HIGHEST: u32 = 65_536;

/// Rows of ten and eleven pixels in turn: so many canonical rectangles.
pub fn tower(alloc: Global, count: u32) -> Result<Region, NoMemory>
    requires { count ≤ 65536 }
    ensures { IfOk result (All (IsRectWithin 1048000)) }
{
    let mut rects = Vec::with_capacity(alloc, count as usize)?;
    for k in 0..count {
        rects.push(row(k))?;
    }
    Ok(Region::from_rects(rects))
}

/// Row `k` of a tower.
fn row(k: u32) -> Rect
    requires { k ≤ 65536 }
    ensures { result ≡ tower_row k }
{
    Rect {
        x0: 0,
        y0: k as i32,
        x1: (10 + k % 2) as i32,
        y1: (k + 1) as i32,
    }
}

/// So many squares of ten pixels, in rows of 128 with gaps of two pixels, and an angle of nine fragments beside them.
pub fn squares(alloc: Global, count: u32, with_angle: bool) -> Result<Region, RowFault>
    ensures { IfOk result (All (IsRectWithin 1048000)) }
{
    let mut shapes = Shapes::new(alloc);
    for k in 0..count.min(HIGHEST) {
        shapes.add_rect(alloc, square(k))?;
    }
    if with_angle {
        shapes.add_rect(alloc, bar(100, 0, 105))?;
        shapes.add_rect(alloc, bar(50, 105, 210))?;
    }
    shapes.union(alloc)
}

fn square(k: u32) -> Rect {
    let x = (k % 128 * 12) as i32;
    let y = (k / 128 % 65536 * 12) as i32;
    Rect {
        x0: x,
        y0: y,
        x1: x + 10,
        y1: y + 10,
    }
}

/// So many rectangles, of which each four are a frame of ten pixels round a hole of four, in rows of 128 frames.
pub fn frames(alloc: Global, count: u32) -> Result<Region, RowFault>
    ensures { IfOk result (All (IsRectWithin 1048000)) }
{
    let mut shapes = Shapes::new(alloc);
    for k in 0..count.min(HIGHEST) {
        shapes.add_rect(alloc, frame_side(k))?;
    }
    shapes.union(alloc)
}

/// The lower, left, right or upper side of a frame.
fn frame_side(k: u32) -> Rect {
    let x = (k / 4 % 128 * 12) as i32;
    let y = (k / 512 % 65536 * 12) as i32;
    match k % 4 {
        0 => rect(x, y, x + 10, y + 3),
        1 => rect(x, y + 3, x + 3, y + 7),
        2 => rect(x + 7, y + 3, x + 10, y + 7),
        _ => rect(x, y + 7, x + 10, y + 10),
    }
}

/// So many squares of ten pixels, in rows of 128 with gaps of 14 pixels, which leave room for two bars.
pub fn squares_apart(alloc: Global, count: u32) -> Result<Region, RowFault>
    ensures { IfOk result (All (IsRectWithin 1048000)) }
{
    let mut shapes = Shapes::new(alloc);
    for k in 0..count.min(HIGHEST) {
        shapes.add_rect(alloc, square_apart(k))?;
    }
    shapes.union(alloc)
}

fn square_apart(k: u32) -> Rect {
    let x = (k % 128 * 24) as i32;
    let y = (k / 128 % 65536 * 24) as i32;
    Rect {
        x0: x,
        y0: y,
        x1: x + 10,
        y1: y + 10,
    }
}

/// A bar left of the squares, so many pixels wide.
fn bar(width: u8, low: i32, high: i32) -> Rect {
    Rect {
        x0: -200,
        y0: low,
        x1: i32::from(width) - 200,
        y1: high,
    }
}
