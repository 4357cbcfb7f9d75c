//! Unions of shapes, worked out by hand.

use crate::shapes::{Shapes, rect, region_of_polygons, region_of_rects};
use opc_base::Corner;
use rect_union::region_of;
use std::test::Fail;

// Squares walked in opposite ways, of which the second lies on a quarter of the first.
#[test]
fn opposite_windings_that_overlap(rt: HostRuntime) -> Result<(), Fail> {
    let alloc = rt.alloc();
    let region = region_of_polygons(
        alloc,
        &[
            &[(0, 0), (6, 0), (6, 4), (0, 4), (0, 0)],
            &[(4, 2), (4, 6), (10, 6), (10, 2), (4, 2)],
        ],
    )?;
    let wanted = [rect(0, 0, 6, 2), rect(0, 2, 10, 4), rect(4, 4, 10, 6)];
    assert_eq!(rt; region.rects(), wanted.as_slice());
    Ok(())
}

// One polygon that goes round the pixels where its ends overlap twice.
#[test]
fn a_polygon_over_itself(rt: HostRuntime) -> Result<(), Fail> {
    let alloc = rt.alloc();
    let region = region_of_polygons(
        alloc,
        &[&[
            (0, 0),
            (6, 0),
            (6, 6),
            (2, 6),
            (2, 2),
            (8, 2),
            (8, 4),
            (0, 4),
            (0, 0),
        ]],
    )?;
    let wanted = [rect(0, 0, 6, 2), rect(0, 2, 8, 4), rect(2, 4, 6, 6)];
    assert_eq!(rt; region.rects(), wanted.as_slice());
    Ok(())
}

#[test]
fn squares_that_touch(rt: HostRuntime) -> Result<(), Fail> {
    let alloc = rt.alloc();
    let beside = region_of_rects(alloc, &[rect(0, 0, 4, 4), rect(4, 0, 8, 4)])?;
    assert_eq!(rt; beside.rects(), [rect(0, 0, 8, 4)].as_slice());
    let above = region_of_rects(alloc, &[rect(0, 4, 4, 8), rect(0, 0, 4, 4)])?;
    assert_eq!(rt; above.rects(), [rect(0, 0, 4, 8)].as_slice());
    Ok(())
}

/// A frame, and in its hole a smaller frame.
const FRAMES: [&[(i32, i32)]; 2] = [
    &[
        (0, 0),
        (12, 0),
        (12, 12),
        (0, 12),
        (0, 6),
        (2, 6),
        (2, 10),
        (10, 10),
        (10, 2),
        (2, 2),
        (2, 6),
        (0, 6),
        (0, 0),
    ],
    &[
        (3, 3),
        (9, 3),
        (9, 9),
        (3, 9),
        (3, 6),
        (5, 6),
        (5, 7),
        (7, 7),
        (7, 5),
        (5, 5),
        (5, 6),
        (3, 6),
        (3, 3),
    ],
];

#[test]
fn a_hole_in_a_hole(rt: HostRuntime) -> Result<(), Fail> {
    let region = region_of_polygons(rt.alloc(), &FRAMES)?;
    let wanted = [
        rect(0, 0, 12, 2),
        rect(0, 2, 2, 10),
        rect(10, 2, 12, 10),
        rect(3, 3, 9, 5),
        rect(3, 5, 5, 7),
        rect(7, 5, 9, 7),
        rect(3, 7, 9, 9),
        rect(0, 10, 12, 12),
    ];
    assert_eq!(rt; region.rects(), wanted.as_slice());
    Ok(())
}

#[test]
fn no_shape(rt: HostRuntime) -> Result<(), Fail> {
    let region = Shapes::new(rt.alloc()).union(rt.alloc())?;
    assert_eq!(rt; region.rects().len(), 0);
    Ok(())
}

/// The corners of two bars that overlap, by rows from below.
const CORNERS: [Corner; 8] = [
    Corner {
        x: 0,
        y: 0,
        sign: 1,
    },
    Corner {
        x: 10,
        y: 0,
        sign: -1,
    },
    Corner {
        x: 10,
        y: 2,
        sign: 1,
    },
    Corner {
        x: 12,
        y: 2,
        sign: -1,
    },
    Corner {
        x: 0,
        y: 4,
        sign: -1,
    },
    Corner {
        x: 5,
        y: 4,
        sign: 1,
    },
    Corner {
        x: 5,
        y: 8,
        sign: -1,
    },
    Corner {
        x: 12,
        y: 8,
        sign: 1,
    },
];

#[test]
fn the_corners_of_two_bars(rt: HostRuntime) -> Result<(), Fail> {
    let region = region_of(rt.alloc(), &CORNERS)?;
    let wanted = [rect(0, 0, 10, 2), rect(0, 2, 12, 4), rect(5, 4, 12, 8)];
    assert_eq!(rt; region.rects(), wanted.as_slice());
    Ok(())
}
