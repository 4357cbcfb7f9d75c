//! Targets with their bars.

ghost use Rattle.std.specs.Prelude.{◌≡◌, true, All, IfOk};
ghost use Rattle.assist_bars.specs.Bars.{AreBarRules, SuitMask};
ghost use Rattle.opc_base.specs.Plane.{IsRectWithin};

use crate::plain::plain_bars;
use assist_bars::{BarRules, bars_of, with_bars};
use geometry_rows::fault::RowFault;
use geometry_rows::moving::target_fragments;
use opc_base::{CutRules, MaskRules, Rect, Region};
use std::alloc::Global;

/// Edges are cut near their ends, and each 100 pixels.
const CUT: CutRules = CutRules {
    piece: 100,
    corner_out: 5,
    corner_in: 5,
    line_end: 10,
};

/// The bars of a target that keeps the rules, and those of the plain judge.
#[derive(Drop)]
pub struct Found {
    pub bars: Vec<Rect>,
    pub plain: Vec<Rect>,
    pub rectangles: usize,
}

/// The bars of a region by these numbers, how many rectangles it has with them, and the plain judge's bars.
pub fn find_bars(
    alloc: Global,
    region: &Region,
    rules: &MaskRules,
    numbers: &BarRules,
) -> Result<Found, RowFault>
    requires { All (IsRectWithin 1048000) region.now }
{
    if !are_in_range(numbers) {
        return Err(RowFault::BreaksRules);
    }
    if !are_suited(rules, numbers) {
        return Err(RowFault::BreaksRules);
    }
    let fragments = target_fragments(alloc, region, &CUT, rules)?;
    let bars = bars_of(alloc, region, &fragments, rules, numbers)?;
    let plain = plain_bars(alloc, region, &fragments, rules, numbers)?;
    let rectangles = with_bars(alloc, region, &bars)?.rects().len();
    Ok(Found {
        bars,
        plain,
        rectangles,
    })
}

/// Whether the numbers are in their ranges.
fn are_in_range(numbers: &BarRules) -> bool
    ensures { result ≡ true → AreBarRules numbers.now }
{
    if numbers.gap < 1 || numbers.gap > 1024 {
        return false;
    }
    if numbers.width < 1 || numbers.width > 1024 {
        return false;
    }
    if numbers.end < 0 || numbers.end > 1024 {
        return false;
    }
    if numbers.min < 1 || numbers.min > 4096 {
        return false;
    }
    true
}

/// Whether the numbers suit the rules.
fn are_suited(rules: &MaskRules, numbers: &BarRules) -> bool
    requires { AreBarRules numbers.now }
    ensures { result ≡ true → SuitMask rules.now numbers.now }
{
    if numbers.gap < rules.space {
        return false;
    }
    if numbers.width < rules.width {
        return false;
    }
    if numbers.min - 2 * numbers.end < rules.width {
        return false;
    }
    true
}
