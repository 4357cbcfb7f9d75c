//! Targets that several tests cut.

ghost use Rattle.std.specs.Prelude.{◌≤◌, All, IfOk};
ghost use Rattle.opc_base.specs.Canonical.{IsSolid};
ghost use Rattle.opc_base.specs.Plane.{IsRectWithin};

use opc_base::{NoMemory, Rect};
use std::alloc::Global;

/// Two bars, each in a tile of its own.
pub const BARS: [Rect; 2] = [
    Rect {
        x0: 0,
        y0: 0,
        x1: 6,
        y1: 20,
    },
    Rect {
        x0: 9,
        y0: 0,
        x1: 15,
        y1: 20,
    },
];

/// So many squares of ten by ten pixels in rows of 128, each so many pixels from the next in its row and in its column.
pub fn squares(alloc: Global, count: u16, step: u8) -> Result<Vec<Rect>, NoMemory>
    requires { count ≤ 8192 }
    ensures solid { IfOk result (λ rects. All IsSolid rects.items) }
    ensures within { IfOk result (λ rects. All (IsRectWithin 1048000) rects.items) }
{
    let mut rects = Vec::new(alloc);
    for number in 0..count {
        rects.push(square((number % 128) as u8, (number / 128) as u8, step))?;
    }
    Ok(rects)
}

/// One of these squares.
fn square(column: u8, row: u8, step: u8) -> Rect
    ensures solid { IsSolid result }
    ensures within { IsRectWithin 1048000 result }
{
    let x0 = i32::from(step) * i32::from(column);
    let y0 = i32::from(step) * i32::from(row);
    Rect {
        x0,
        y0,
        x1: x0 + 10,
        y1: y0 + 10,
    }
}
