//! Fragments of targets, worked out by hand: where they lie, what they meet, where their errors are measured.

use crate::fault::RowFault;
use crate::moving::{Moving, target_fragments};
use crate::rows::{CROSS, CUT, FINE, MASK, PIECES};
use crate::shapes::{rect, region_of_polygons, region_of_rects};
use fragment::Join;
use opc_base::{Pix, Side};
use std::process::Abort;
use std::test::Fail;

#[test]
fn the_sides_of_a_square(rt: HostRuntime) -> Result<(), Fail> {
    let alloc = rt.alloc();
    let region = region_of_rects(alloc, &[rect(0, 0, 10, 10)])?;
    let moving = Moving::of_target(alloc, &region, &CUT, MASK)?;
    let fragments = moving.fragments();
    assert_eq!(rt; fragments.count(), 4);
    let sides = [
        (Side::Left, 0, Join::Corner(2), Join::Corner(3)),
        (Side::Right, 10, Join::Corner(2), Join::Corner(3)),
        (Side::Down, 0, Join::Corner(0), Join::Corner(1)),
        (Side::Up, 10, Join::Corner(0), Join::Corner(1)),
    ];
    for (i, &(side, edge, low, high)) in sides.iter().enumerate() {
        let fragment = fragments.get(i as u32);
        assert_eq!(rt; (fragment.side, fragment.edge), (side, edge));
        assert_eq!(rt; (fragment.lo, fragment.hi), (0, 10));
        assert_eq!(rt; (fragment.low, fragment.high), (low, high));
    }
    Ok(())
}

/// Where samples of fragments lie: the number of the fragment and of the sample, and the pixel.
fn check_sites<R: Abort>(
    rt: &R,
    moving: &Moving,
    rows: &[(u32, i32, (i32, i32))],
) -> Result<(), RowFault> {
    for &(i, t, wanted) in rows {
        let Pix { x, y } = moving.site(i, t)?;
        assert_eq!(rt; (x, y), wanted, "{i} {t}");
    }
    Ok(())
}

// Sample -1 is the last pixel inside, and sample 0 the first outside. The sides of the second rectangle have odd lengths,
// and their middles lie below 0.
#[test]
fn the_sites_of_whole_sides(rt: HostRuntime) -> Result<(), Fail> {
    let alloc = rt.alloc();
    let region = region_of_rects(alloc, &[rect(0, 0, 10, 10)])?;
    let square = Moving::of_target(alloc, &region, &CUT, MASK)?;
    let rows = [
        (0, -1, (0, 5)),
        (0, 0, (-1, 5)),
        (1, -1, (9, 5)),
        (1, 0, (10, 5)),
        (2, -1, (5, 0)),
        (2, 0, (5, -1)),
        (3, -1, (5, 9)),
        (3, 0, (5, 10)),
    ];
    check_sites(&rt, &square, &rows)?;
    let region = region_of_rects(alloc, &[rect(-6, -4, 1, 1)])?;
    let odd = Moving::of_target(alloc, &region, &CUT, MASK)?;
    let rows = [
        (0, -16, (9, -2)),
        (0, 2, (-9, -2)),
        (0, 15, (-22, -2)),
        (1, -16, (-15, -2)),
        (1, -3, (-2, -2)),
        (1, 15, (16, -2)),
        (2, -16, (-3, 11)),
        (2, 2, (-3, -7)),
        (2, 15, (-3, -20)),
        (3, -16, (-3, -15)),
        (3, 2, (-3, 3)),
        (3, 15, (-3, 16)),
    ];
    check_sites(&rt, &odd, &rows)?;
    Ok(())
}

// Pieces of 3, 4 and 3 of the left side, and of 3, 5, 4 and 3 of the upper side.
#[test]
fn the_sites_of_pieces(rt: HostRuntime) -> Result<(), Fail> {
    let alloc = rt.alloc();
    let region = region_of_rects(alloc, &[rect(0, 0, 15, 10)])?;
    let bar = Moving::of_target(alloc, &region, &PIECES, MASK)?;
    let rows = [
        (0, -1, (0, 1)),
        (1, -1, (0, 5)),
        (2, -1, (0, 8)),
        (10, 1, (1, 11)),
        (11, 1, (5, 11)),
        (12, 1, (10, 11)),
        (13, 1, (13, 11)),
    ];
    check_sites(&rt, &bar, &rows)?;
    Ok(())
}

// Two bars that overlap, and a frame round a hole.
#[test]
fn the_sides_of_a_cross_and_a_frame(rt: HostRuntime) -> Result<(), Fail> {
    let alloc = rt.alloc();
    let region = region_of_polygons(alloc, &CROSS)?;
    let moving = Moving::of_target(alloc, &region, &CUT, MASK)?;
    let fragments = moving.fragments();
    assert_eq!(rt; fragments.count(), 16);
    let sides = [
        (Side::Left, 0, 0, 4),
        (Side::Left, 5, 4, 8),
        (Side::Right, 10, 0, 2),
        (Side::Right, 12, 2, 8),
        (Side::Left, 20, 0, 10),
        (Side::Right, 23, 3, 7),
        (Side::Left, 27, 3, 7),
        (Side::Right, 30, 0, 10),
        (Side::Down, 0, 0, 10),
        (Side::Down, 0, 20, 30),
        (Side::Down, 2, 10, 12),
        (Side::Up, 3, 23, 27),
        (Side::Up, 4, 0, 5),
        (Side::Down, 7, 23, 27),
        (Side::Up, 8, 5, 12),
        (Side::Up, 10, 20, 30),
    ];
    for (i, &(side, edge, lo, hi)) in sides.iter().enumerate() {
        let fragment = fragments.get(i as u32);
        assert_eq!(rt; (fragment.side, fragment.edge), (side, edge), "{i}");
        assert_eq!(rt; (fragment.lo, fragment.hi), (lo, hi), "{i}");
    }
    Ok(())
}

// Edges of 10 and 15 pixels, cut into 3, 4, 3 and 3, 5, 4, 3. Pieces of one edge meet at cuts.
#[test]
fn pieces_of_an_edge_meet_at_cuts(rt: HostRuntime) -> Result<(), Fail> {
    let alloc = rt.alloc();
    let region = region_of_rects(alloc, &[rect(0, 0, 15, 10)])?;
    let moving = Moving::of_target(alloc, &region, &PIECES, MASK)?;
    let fragments = moving.fragments();
    assert_eq!(rt; fragments.count(), 14);
    let middle = fragments.get(7);
    assert_eq!(rt; (middle.low, middle.high), (Join::Cut(6), Join::Cut(8)));
    let first = fragments.get(6);
    assert_eq!(rt; (first.low, first.high), (Join::Corner(0), Join::Cut(7)));
    Ok(())
}

#[test]
fn no_fragment_of_nothing(rt: HostRuntime) -> Result<(), Fail> {
    let alloc = rt.alloc();
    let region = region_of_rects(alloc, &[])?;
    let moving = Moving::of_target(alloc, &region, &CUT, MASK)?;
    assert_eq!(rt; moving.fragments().count(), 0);
    Ok(())
}

// A square of six pixels a side, each of which is a fragment.
#[test]
fn fragments_of_one_pixel(rt: HostRuntime) -> Result<(), Fail> {
    let alloc = rt.alloc();
    let region = region_of_rects(alloc, &[rect(0, 0, 6, 6)])?;
    let moving = Moving::of_target(alloc, &region, &FINE, MASK)?;
    let fragments = moving.fragments();
    assert_eq!(rt; fragments.count(), 24);
    let left = [
        (Join::Corner(12), Join::Cut(1)),
        (Join::Cut(0), Join::Cut(2)),
        (Join::Cut(1), Join::Cut(3)),
        (Join::Cut(2), Join::Cut(4)),
        (Join::Cut(3), Join::Cut(5)),
        (Join::Cut(4), Join::Corner(18)),
    ];
    for (i, &joins) in left.iter().enumerate() {
        let fragment = fragments.get(i as u32);
        let low = i as i32;
        assert_eq!(rt; (fragment.side, fragment.edge), (Side::Left, 0));
        assert_eq!(rt; (fragment.lo, fragment.hi), (low, low + 1));
        assert_eq!(rt; (fragment.low, fragment.high), joins, "{i}");
    }
    check_sites(&rt, &moving, &[(0, 0, (-1, 0)), (5, -1, (0, 5))])?;
    Ok(())
}

// A square of 8,192 pixels a side; and an L whose sides are cut into 8,192, 8,193, 4,000, 8,191, 4,192 and 1 fragments.
#[test]
fn the_most_fragments(rt: HostRuntime) -> Result<(), Fail> {
    let alloc = rt.alloc();
    let square = region_of_rects(alloc, &[rect(0, 0, 8192, 8192)])?;
    let most = target_fragments(alloc, &square, &FINE, &MASK)?;
    assert_eq!(rt; most.count(), 32_768);
    let angle = [rect(0, 0, 8193, 4000), rect(0, 0, 2, 8192)];
    let angle = region_of_rects(alloc, &angle)?;
    let refused = match target_fragments(alloc, &angle, &FINE, &MASK) {
        Err(RowFault::TooManyFragments(count)) => count,
        _ => 0,
    };
    assert_eq!(rt; refused, 32_769);
    Ok(())
}
