//! What two stretches of one direction can break, and where first.

ghost use Rattle.std.specs.Prelude.{◌≡◌};
ghost use Rattle.outline_model.specs.Ranges.{IsWithin};
ghost use Rattle.mask_rules.specs.Clashes.{IsClash, clash_area, clash_pixel, clash_place, clash_test, is_meeting, is_narrow, is_touching, of_colour, overlap};
ghost use Rattle.mask_rules.specs.Limits.{IsStretchWithin};

use crate::stretch::{Stretch, pixel_at, rect_at};
use opc_base::{Pix, Rect};

/// What two stretches of one direction can break.
#[derive(Clone, Copy)]
pub enum Clash {
    /// They lie on one line and are of opposite sign.
    Meet,
    /// Between them are fewer than `least` pixels, all covered or all not covered.
    Narrow {
        /// Whether the pixels are covered.
        covered: bool,
        /// So many are enough.
        least: i32,
    },
    /// They lie on one line, are of opposite sign, and one ends where the other begins.
    Touch,
}

/// The test, or its opposite where the pixels that are looked at are not covered.
pub fn of_colour(covered: bool, test: bool) -> bool
    ensures { result ≡ of_colour covered test }
{
    if covered { test } else { !test }
}

fn overlap(first: Stretch, second: Stretch) -> bool
    ensures { result ≡ overlap first second }
{
    first.low.max(second.low) < first.high.min(second.high)
}

/// Whether the stretches lie on one line, one beside the other, where the first has the inside after it.
fn is_meeting(first: Stretch, second: Stretch) -> bool
    ensures { result ≡ is_meeting first second }
{
    first.opens & !second.opens & (first.at == second.at) & overlap(first, second)
}

/// Whether fewer than `least` pixels lie between the stretches.
fn is_narrow(covered: bool, least: i32, first: Stretch, second: Stretch) -> bool
    requires least { IsWithin 1024 least }
    requires first { IsStretchWithin first }
    ensures { result ≡ is_narrow covered least first second }
{
    of_colour(covered, first.opens)
        & !of_colour(covered, second.opens)
        & (first.at < second.at)
        & (second.at < first.at + least)
        & overlap(first, second)
}

/// Whether the second stretch begins where the first ends, on one line, with the inside on the other side.
fn is_touching(vertical: bool, first: Stretch, second: Stretch) -> bool
    ensures { result ≡ is_touching vertical first second }
{
    !vertical
        & of_colour(first.opens, !second.opens)
        & (first.at == second.at)
        & (first.high == second.low)
        & (first.low < first.high)
        & (second.low < second.high)
}

impl Clash {
    fn is_between(self, vertical: bool, first: Stretch, second: Stretch) -> bool
        requires clash { IsClash self }
        requires first { IsStretchWithin first }
        ensures { result ≡ clash_test self vertical first second }
    {
        match self {
            Clash::Meet => is_meeting(first, second),
            Clash::Narrow { covered, least } => is_narrow(covered, least, first, second),
            Clash::Touch => is_touching(vertical, first, second),
        }
    }

    /// Where a clash of the stretches comes first.
    fn place(self, vertical: bool, first: Stretch, second: Stretch) -> Pix
        requires first { IsStretchWithin first }
        ensures { result ≡ clash_place self vertical first second }
    {
        match self {
            Clash::Meet => pixel_at(vertical, first.at, first.low.max(second.low)),
            Clash::Narrow { .. } => pixel_at(vertical, first.at, first.low.max(second.low)),
            Clash::Touch => pixel_at(vertical, first.at - 1, first.high - 1),
        }
    }

    /// The first pixel of the clash of two stretches.
    pub fn pixel(self, vertical: bool, first: Stretch, second: Stretch) -> Option<Pix>
        requires clash { IsClash self }
        requires first { IsStretchWithin first }
        requires second { IsStretchWithin second }
        ensures { result ≡ clash_pixel self vertical first second }
    {
        if self.is_between(vertical, first, second) {
            Some(self.place(vertical, first, second))
        } else {
            None
        }
    }
}

/// A rectangle that has the places beside a stretch at which others that are at most `reach` apart can clash with it.
pub fn clash_area(reach: i32, vertical: bool, stretch: Stretch) -> Rect
    requires reach { IsWithin 1024 reach }
    requires stretch { IsStretchWithin stretch }
    ensures { result ≡ clash_area reach vertical stretch }
{
    let first = stretch.at - reach;
    let past = stretch.at + reach + 1;
    rect_at(vertical, first, past, stretch.low - 1, stretch.high + 1)
}
