//! Moves of fragments, worked out by hand: what they sweep, and the rules that refuse them.

use crate::fault::RowFault;
use crate::moving::Moving;
use crate::rows::{ANGLE, BARS, CUT, FINE, MASK, PIECES, short_runs};
use crate::shapes::{rect, region_of_rects};
use opc_base::{Broken, CutRules, Pix, Place, Rect, RuleName, Swept};
use std::alloc::Global;
use std::process::Abort;
use std::test::Fail;

fn moving(alloc: Global, rects: &[Rect], cut: &CutRules) -> Result<Moving, RowFault> {
    let region = region_of_rects(alloc, rects)?;
    Moving::of_target(alloc, &region, cut, MASK)
}

fn at_pixel(rule: RuleName, x: i32, y: i32) -> Option<Broken> {
    Some(Broken {
        rule,
        at: Place::Pixel(Pix { x, y }),
    })
}

fn at_fragment(rule: RuleName, i: u32) -> Option<Broken> {
    Some(Broken {
        rule,
        at: Place::Fragment(i),
    })
}

fn gains(x0: i32, y0: i32, x1: i32, y1: i32) -> Option<Swept> {
    Some(Swept {
        rect: rect(x0, y0, x1, y1),
        sign: 1,
    })
}

fn loses(x0: i32, y0: i32, x1: i32, y1: i32) -> Option<Swept> {
    Some(Swept {
        rect: rect(x0, y0, x1, y1),
        sign: -1,
    })
}

/// What each fragment would sweep if it took this offset.
fn check_swept<R: Abort>(
    rt: &R,
    moving: &Moving,
    rows: &[(u32, i32, Option<Swept>)],
) -> Result<(), RowFault> {
    for &(i, to, wanted) in rows {
        assert_eq!(rt; moving.swept(i, to)?, wanted, "{i} to {to}");
    }
    Ok(())
}

/// Fragments take offsets one after another, or a rule refuses them.
fn check_moves<R: Abort>(
    rt: &R,
    moving: &mut Moving,
    rows: &[(u32, i32, Option<Broken>)],
) -> Result<(), RowFault> {
    for &(i, to, wanted) in rows {
        assert_eq!(rt; moving.take(i, to)?, wanted, "{i} to {to}");
    }
    Ok(())
}

/// Where the line of each fragment lies, and its low and high end.
fn check_places<R: Abort>(
    rt: &R,
    moving: &Moving,
    places: &[(i32, i32, i32)],
) -> Result<(), RowFault> {
    assert_eq!(rt; moving.fragments().count() as usize, places.len());
    for (i, &place) in places.iter().enumerate() {
        assert_eq!(rt; moving.place(i as u32)?, place, "{i}");
    }
    Ok(())
}

// The angle's inner sides meet at a concave corner, which both of them have moved in the end.
#[test]
fn what_moves_sweep(rt: HostRuntime) -> Result<(), Fail> {
    let mut angle = moving(rt.alloc(), &ANGLE, &CUT)?;
    check_swept(&rt, &angle, &[(1, 2, gains(8, 8, 10, 20)), (1, 0, None)])?;
    check_moves(&rt, &mut angle, &[(1, 2, None)])?;
    let one_moved = [
        (1, 2, None),
        (1, 0, loses(8, 8, 10, 20)),
        (4, 3, gains(10, 8, 20, 11)),
    ];
    check_swept(&rt, &angle, &one_moved)?;
    check_moves(&rt, &mut angle, &[(4, 3, None)])?;
    let both_moved = [
        (0, 2, gains(-2, 0, 0, 20)),
        (1, 4, gains(10, 11, 12, 20)),
        (1, 0, loses(8, 11, 10, 20)),
        (2, 1, gains(20, 0, 21, 11)),
        (4, 5, gains(10, 11, 20, 13)),
        (4, -1, loses(10, 7, 20, 11)),
        (5, 1, gains(0, 20, 10, 21)),
    ];
    check_swept(&rt, &angle, &both_moved)?;
    Ok(())
}

// The last move would bring the end of fragment 4 past its other end.
#[test]
fn moves_at_a_concave_corner(rt: HostRuntime) -> Result<(), Fail> {
    let mut angle = moving(rt.alloc(), &ANGLE, &CUT)?;
    let rows = [
        (1, 2, None),
        (4, 3, None),
        (1, 12, at_fragment(RuleName::M4, 4)),
    ];
    check_moves(&rt, &mut angle, &rows)?;
    let places = [
        (0, 0, 20),
        (10, 11, 20),
        (20, 0, 11),
        (0, 0, 20),
        (11, 10, 20),
        (20, 0, 10),
    ];
    check_places(&rt, &angle, &places)?;
    Ok(())
}

// The second of the inner sides would leave one pixel between the bars.
#[test]
fn eight_sides_move_outward(rt: HostRuntime) -> Result<(), Fail> {
    let mut bars = moving(rt.alloc(), &BARS, &CUT)?;
    let rows = [
        (0, 1, None),
        (1, 1, None),
        (2, 1, at_pixel(RuleName::M2, 7, 0)),
        (3, 1, None),
        (4, 1, None),
        (5, 1, None),
        (6, 1, None),
        (7, 1, None),
    ];
    check_moves(&rt, &mut bars, &rows)?;
    let places = [
        (-1, -1, 21),
        (7, -1, 21),
        (9, -1, 21),
        (16, -1, 21),
        (-1, -1, 7),
        (-1, 9, 16),
        (21, -1, 7),
        (21, 9, 16),
    ];
    check_places(&rt, &bars, &places)?;
    Ok(())
}

#[test]
fn a_gap_that_closes(rt: HostRuntime) -> Result<(), Fail> {
    let mut bars = moving(rt.alloc(), &BARS, &CUT)?;
    let rows = [
        (1, 2, at_pixel(RuleName::M2, 8, 0)),
        (1, 2, at_pixel(RuleName::M2, 8, 0)),
        (1, 3, at_pixel(RuleName::M0, 9, 0)),
        (1, 5, at_pixel(RuleName::M0, 9, 0)),
        (1, 17, at_fragment(RuleName::M5, 1)),
        (1, -2, None),
    ];
    check_moves(&rt, &mut bars, &rows)?;
    let places = [
        (0, 0, 20),
        (4, 0, 20),
        (9, 0, 20),
        (15, 0, 20),
        (0, 0, 4),
        (0, 9, 15),
        (20, 0, 4),
        (20, 9, 15),
    ];
    check_places(&rt, &bars, &places)?;
    Ok(())
}

#[test]
fn a_bar_that_gets_narrow(rt: HostRuntime) -> Result<(), Fail> {
    let mut bars = moving(rt.alloc(), &BARS, &CUT)?;
    let rows = [
        (1, -5, at_pixel(RuleName::M1, 0, 0)),
        (1, -9, at_fragment(RuleName::M5, 1)),
    ];
    check_moves(&rt, &mut bars, &rows)?;
    Ok(())
}

#[test]
fn corners_that_come_to_touch(rt: HostRuntime) -> Result<(), Fail> {
    let squares = [rect(0, 0, 10, 10), rect(12, 10, 22, 20)];
    let mut squares = moving(rt.alloc(), &squares, &CUT)?;
    let rows = [(1, 2, at_pixel(RuleName::M3, 11, 9)), (1, 1, None)];
    check_moves(&rt, &mut squares, &rows)?;
    Ok(())
}

// Pieces of 3, 4 and 3 of the left and the right side, and of 3, 5, 4 and 3 of the lower and the upper side.
#[test]
fn jogs_between_pieces(rt: HostRuntime) -> Result<(), Fail> {
    let mut bar = moving(rt.alloc(), &[rect(0, 0, 15, 10)], &PIECES)?;
    let rows = [
        (1, 2, None),
        (7, -1, None),
        (6, -1, None),
        (6, -3, at_fragment(RuleName::M4, 0)),
    ];
    check_moves(&rt, &mut bar, &rows)?;
    let places = [
        (0, 1, 3),
        (-2, 3, 7),
        (0, 7, 10),
        (15, 0, 3),
        (15, 3, 7),
        (15, 7, 10),
        (1, 0, 3),
        (1, 3, 8),
        (0, 8, 12),
        (0, 12, 15),
        (10, 0, 3),
        (10, 3, 8),
        (10, 8, 12),
        (10, 12, 15),
    ];
    check_places(&rt, &bar, &places)?;
    Ok(())
}

// The third pixel of the left side moves out and in: a bump and a dent of one pixel.
#[test]
fn a_fragment_of_one_pixel_moves(rt: HostRuntime) -> Result<(), Fail> {
    let alloc = rt.alloc();
    let region = region_of_rects(alloc, &[rect(0, 0, 6, 6)])?;
    let rows = [
        (short_runs(1, 1), 1, None),
        (short_runs(1, 1), -1, None),
        (short_runs(2, 1), 1, at_pixel(RuleName::M1, -1, 2)),
        (short_runs(2, 1), -1, None),
        (short_runs(1, 2), 1, None),
        (short_runs(1, 2), -1, at_pixel(RuleName::M2, 0, 2)),
        (short_runs(3, 1), -1, at_pixel(RuleName::M1, 0, 0)),
    ];
    for (rules, to, wanted) in rows {
        let mut square = Moving::of_target(alloc, &region, &FINE, rules)?;
        assert_eq!(rt; square.take(2, to)?, wanted, "{to}: {rules:?}");
    }
    Ok(())
}
