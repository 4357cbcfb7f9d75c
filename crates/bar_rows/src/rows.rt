//! Bars that were found by hand.

use crate::scene::find_bars;
use assist_bars::BarRules;
use geometry_rows::fault::RowFault;
use geometry_rows::shapes::{rect, region_of_rects};
use opc_base::{MaskRules, Rect};
use std::alloc::Global;
use std::process::Abort;

const RULES: MaskRules = MaskRules {
    width: 2,
    space: 2,
    max_in: 8,
    max_out: 16,
};

/// The target of these rectangles has these bars, each of which is a rectangle of both together.
fn check<R: Abort>(
    rt: &R,
    alloc: Global,
    rects: &[Rect],
    numbers: (i32, i32, i32, i32),
    wanted: &[Rect],
) -> Result<(), RowFault> {
    let (gap, width, end, min) = numbers;
    let numbers = BarRules {
        gap,
        width,
        end,
        min,
    };
    let region = region_of_rects(alloc, rects)?;
    let found = find_bars(alloc, &region, &RULES, &numbers)?;
    assert_eq!(rt; found.bars.as_slice(), wanted);
    assert_eq!(rt; found.plain.as_slice(), wanted);
    assert!(rt; found.rectangles == region.rects().len().wrapping_add(wanted.len()));
    Ok(())
}

#[test]
fn bars_beside_edges(rt: HostRuntime) -> Result<(), RowFault> {
    let alloc = rt.alloc();
    let square = [rect(0, 0, 10, 10)];
    let wanted = [
        rect(-6, 1, -4, 9),
        rect(14, 1, 16, 9),
        rect(1, -6, 9, -4),
        rect(1, 14, 9, 16),
    ];
    check(&rt, alloc, &square, (4, 2, 1, 10), &wanted)?;
    check(&rt, alloc, &square, (4, 2, 1, 11), &[])?;
    let narrowest = [
        rect(-4, 0, -2, 10),
        rect(12, 0, 14, 10),
        rect(0, -4, 10, -2),
        rect(0, 12, 10, 14),
    ];
    check(&rt, alloc, &square, (2, 2, 0, 2), &narrowest)?;
    // where two edges meet the later bar is dropped
    let pair = [rect(0, 0, 10, 10), rect(22, 0, 32, 10)];
    let wanted = [
        rect(-6, 1, -4, 9),
        rect(14, 1, 16, 9),
        rect(36, 1, 38, 9),
        rect(1, -6, 9, -4),
        rect(23, -6, 31, -4),
        rect(1, 14, 9, 16),
        rect(23, 14, 31, 16),
    ];
    check(&rt, alloc, &pair, (4, 2, 1, 10), &wanted)?;
    Ok(())
}

/// An angle with an inner corner at (10, 10).
#[test]
fn bars_of_an_inner_corner(rt: HostRuntime) -> Result<(), RowFault> {
    let alloc = rt.alloc();
    let angle = [rect(0, 0, 40, 10), rect(0, 10, 10, 40)];
    let apart = [
        rect(-6, 1, -4, 39),
        rect(44, 1, 46, 9),
        rect(1, -6, 39, -4),
        rect(1, 44, 9, 46),
    ];
    check(&rt, alloc, &angle, (4, 2, 1, 10), &apart)?;
    let shorter = [
        rect(-6, 3, -4, 37),
        rect(14, 13, 16, 37),
        rect(44, 3, 46, 7),
        rect(3, -6, 37, -4),
        rect(3, 44, 7, 46),
    ];
    check(&rt, alloc, &angle, (4, 2, 3, 10), &shorter)?;
    Ok(())
}

/// The right bar ends at the limit of coordinates, or would end one pixel beyond it.
#[test]
fn bars_at_the_limit(rt: HostRuntime) -> Result<(), RowFault> {
    let alloc = rt.alloc();
    let at = [rect(1_047_984, 0, 1_047_994, 10)];
    let wanted = [
        rect(1_047_978, 1, 1_047_980, 9),
        rect(1_047_998, 1, 1_048_000, 9),
        rect(1_047_985, -6, 1_047_993, -4),
        rect(1_047_985, 14, 1_047_993, 16),
    ];
    check(&rt, alloc, &at, (4, 2, 1, 10), &wanted)?;
    let beyond = [rect(1_047_985, 0, 1_047_995, 10)];
    let wanted = [
        rect(1_047_979, 1, 1_047_981, 9),
        rect(1_047_986, -6, 1_047_994, -4),
        rect(1_047_986, 14, 1_047_994, 16),
    ];
    check(&rt, alloc, &beyond, (4, 2, 1, 10), &wanted)?;
    Ok(())
}
