//! The bar that an edge proposes.

ghost use Rattle.std.specs.Prelude.{◌≡◌, ◌≤◌, ◌-ℤ◌, ◌≤ℤ◌, true, false, unsigned_abs};
ghost use Rattle.opc_base.specs.Plane.{IsRectWithin};
ghost use Rattle.outline_model.specs.Ranges.{IsInLayout};
ghost use Rattle.assist_bars.specs.Bars.{AreBarRules, grown, proposed};

use crate::bar_rules::BarRules;
use opc_base::{Rect, Side};
use outline_model::Edge;

/// The farthest coordinate of a bar.
const LIMIT: u32 = 1_048_000;

/// The rectangle from the gap outward of an edge, along the edge without its ends.
pub fn proposed(edge: &Edge, bars: &BarRules) -> Rect
    requires rules { AreBarRules bars.now }
    requires line { IsInLayout edge.now.line }
    requires lo { IsInLayout edge.now.lo }
    requires hi { IsInLayout edge.now.hi }
    ensures { result ≡ proposed bars.now edge.now }
{
    let lo = edge.lo + bars.end;
    let hi = edge.hi - bars.end;
    let near = bars.gap;
    let far = bars.gap + bars.width;
    match edge.side {
        Side::Left => Rect {
            x0: edge.line - far,
            y0: lo,
            x1: edge.line - near,
            y1: hi,
        },
        Side::Right => Rect {
            x0: edge.line + near,
            y0: lo,
            x1: edge.line + far,
            y1: hi,
        },
        Side::Down => Rect {
            x0: lo,
            y0: edge.line - far,
            x1: hi,
            y1: edge.line - near,
        },
        Side::Up => Rect {
            x0: lo,
            y0: edge.line + near,
            x1: hi,
            y1: edge.line + far,
        },
    }
}

/// Whether the edge is long enough for a bar.
pub fn is_long(edge: &Edge, bars: &BarRules) -> bool
    requires lo { IsInLayout edge.now.lo }
    requires hi { IsInLayout edge.now.hi }
    ensures long { result ≡ true → bars.now.min ≤ℤ (edge.now.hi -ℤ edge.now.lo) }
    ensures short { result ≡ false → bars.now.min ≤ℤ (edge.now.hi -ℤ edge.now.lo) → ⊥ }
{
    bars.min <= edge.hi - edge.lo
}

/// Whether no coordinate is further than 1,048,000 from 0.
pub fn is_within(rect: &Rect) -> bool
    ensures within { result ≡ true → IsRectWithin 1048000 rect.now }
    ensures beyond { result ≡ false → IsRectWithin 1048000 rect.now → ⊥ }
{
    rect.x0.unsigned_abs() <= LIMIT
        && rect.y0.unsigned_abs() <= LIMIT
        && rect.x1.unsigned_abs() <= LIMIT
        && rect.y1.unsigned_abs() <= LIMIT
}

/// The rectangle, greater by a margin on each side.
pub fn grown(rect: &Rect, margin: i32) -> Rect
    requires within { IsRectWithin 1048000 rect.now }
    requires margin { unsigned_abs margin ≤ 1024 }
    ensures { result ≡ grown margin rect.now }
{
    Rect {
        x0: rect.x0 - margin,
        y0: rect.y0 - margin,
        x1: rect.x1 + margin,
        y1: rect.y1 + margin,
    }
}
