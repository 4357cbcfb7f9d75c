//! What a fragment gives to the outline in one direction.

ghost use Rattle.std.specs.Prelude.{◌≡◌, ◌↔◌, IsTrue};
ghost use Rattle.outline_model.specs.Ranges.{IsWithin};
ghost use Rattle.mask_rules.specs.Stretches.{IsAcross, pixel_at, rect_at, walked};
ghost use Rattle.mask_rules.specs.Limits.{IsStretchWithin};

use opc_base::{Pix, Rect};

/// What one fragment gives to the outline in one direction: itself, or the jog after it.
#[derive(Clone, Copy, PartialEq, Eq, Debug)]
pub struct Stretch {
    /// Where it lies across its direction.
    pub at: i32,
    /// Its low end along its direction.
    pub low: i32,
    /// Its high end along its direction.
    pub high: i32,
    /// Whether the inside is on its side of greater coordinates.
    pub opens: bool,
}

/// The stretch that is walked from one place to another, with the inside on the left hand.
pub fn walk(vertical: bool, at: i32, from: i32, to: i32) -> Stretch
    requires at { IsWithin 1048128 at }
    requires from { IsWithin 1048128 from }
    requires to { IsWithin 1048128 to }
    ensures stretch { result ≡ walked vertical at from to }
    ensures within { IsStretchWithin result }
{
    Stretch {
        at,
        low: from.min(to),
        high: from.max(to),
        opens: if vertical { to < from } else { from < to },
    }
}

/// The pixel at a place across the stretches of one direction, and a place along them.
pub fn pixel_at(vertical: bool, across: i32, along: i32) -> Pix
    ensures { result ≡ pixel_at vertical across along }
{
    if vertical {
        Pix {
            x: across,
            y: along,
        }
    } else {
        Pix {
            x: along,
            y: across,
        }
    }
}

/// The rectangle between two places across, and two places along.
pub fn rect_at(vertical: bool, first: i32, past: i32, low: i32, high: i32) -> Rect
    ensures { result ≡ rect_at vertical first past low high }
{
    if vertical {
        Rect {
            x0: first,
            y0: low,
            x1: past,
            y1: high,
        }
    } else {
        Rect {
            x0: low,
            y0: first,
            x1: high,
            y1: past,
        }
    }
}

/// Whether a place across the stretches of one direction is one of the rectangle's.
pub fn is_across(vertical: bool, rect: &Rect, place: i32) -> bool
    ensures { IsTrue result ↔ IsAcross vertical rect.now place }
{
    if vertical {
        rect.x0 <= place && place < rect.x1
    } else {
        rect.y0 <= place && place < rect.y1
    }
}
