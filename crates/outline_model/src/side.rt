//! What a side of the inside means for a line on it.

ghost use Rattle.std.specs.Prelude.{◌≡◌, ◌+ℤ◌};
ghost use Rattle.outline_model.specs.Outline.{is_rising, is_vertical, outward, rect_between};
ghost use Rattle.outline_model.specs.Ranges.{IsWithin};

use opc_base::{Rect, Side};

/// Whether lines of this side are vertical.
pub fn is_vertical(side: Side) -> bool
    ensures { result ≡ is_vertical side }
{
    match side {
        Side::Left | Side::Right => true,
        Side::Down | Side::Up => false,
    }
}

/// Whether the side is walked from its low end to its high end, the inside on the left hand.
pub fn is_rising(side: Side) -> bool
    ensures { result ≡ is_rising side }
{
    match side {
        Side::Left | Side::Up => false,
        Side::Right | Side::Down => true,
    }
}

/// The line at this distance outward from an edge.
pub fn moved(side: Side, edge: i32, distance: i32) -> i32
    requires edge { IsWithin 1048000 edge }
    requires distance { IsWithin 128 distance }
    ensures line { result ≡ edge +ℤ outward side distance }
    ensures within { IsWithin 1048128 result }
{
    match side {
        Side::Left | Side::Down => edge - distance,
        Side::Right | Side::Up => edge + distance,
    }
}

/// The rectangle between two lines of this side, over these ends.
pub fn rect_between(side: Side, a: i32, b: i32, low: i32, high: i32) -> Rect
    ensures { result ≡ rect_between side a b low high }
{
    let (first, last) = if b < a { (b, a) } else { (a, b) };
    match side {
        Side::Left | Side::Right => Rect {
            x0: first,
            y0: low,
            x1: last,
            y1: high,
        },
        Side::Down | Side::Up => Rect {
            x0: low,
            y0: first,
            x1: high,
            y1: last,
        },
    }
}
