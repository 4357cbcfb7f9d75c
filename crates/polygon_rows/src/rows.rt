//! Masks and their files.
ghost use Rattle.std.specs.Prelude.{All, IfOk};
ghost use Rattle.opc_base.specs.Plane.{IsRectWithin};

use crate::cases::{
    APART, AT_A_CORNER, CROSS, Case, NESTED, ON_ONE_POINT, RANDOM_0, RANDOM_1, RANDOM_2, RANDOM_3,
    SIDE_BY_SIDE,
};
use crate::files::polygon_file;
use geometry_rows::shapes::{Shapes, rect};
use geometry_rows::written::{HEAD, pick, read_back};
use opc_base::{Rect, Region};
use std::alloc::Global;
use std::process::Abort;
use std::test::Fail;

/// BGNSTR, STRNAME `MASK`.
const STRUCTURE: [u8; 36] = [
    0, 28, 5, 2, 0, 0, 0, 0, 0, 0, 0, 0, 0, 0, 0, 0, 0, 0, 0, 0, 0, 0, 0, 0, 0, 0, 0, 0, 0, 8, 6,
    6, 77, 65, 83, 75,
];

/// BOUNDARY, LAYER 1, DATATYPE 0.
const ELEMENT: [u8; 16] = [0, 4, 8, 0, 0, 6, 13, 2, 0, 1, 0, 6, 14, 2, 0, 0];

/// ENDEL.
const END: [u8; 4] = [0, 4, 17, 0];

/// ENDSTR, ENDLIB.
const CLOSING: [u8; 8] = [0, 4, 7, 0, 0, 4, 4, 0];

/// The file with these polygons.
fn file_of(alloc: Global, polygons: &[&[(i32, i32)]]) -> Result<Vec<u8>, Fail> {
    let mut file = [HEAD.as_slice(), STRUCTURE.as_slice()].concat(alloc)?;
    for points in polygons {
        file.extend_from_slice(&ELEMENT)?;
        let length = (points.len() % 8192 * 8 + 4) as u16;
        file.extend_from_slice(&length.to_be_bytes())?;
        file.extend_from_slice(&[16, 3])?;
        push_points(&mut file, points)?;
        file.extend_from_slice(&END)?;
    }
    file.extend_from_slice(&CLOSING)?;
    Ok(file)
}

/// Appends points, x before y.
fn push_points(file: &mut Vec<u8>, points: &[(i32, i32)]) -> Result<(), Fail> {
    for (x, y) in points {
        file.extend_from_slice(&x.to_be_bytes())?;
        file.extend_from_slice(&y.to_be_bytes())?;
    }
    Ok(())
}

/// The mask's file has these polygons, point by point, and when it is read the mask again.
fn check<R: Abort>(rt: &R, alloc: Global, case: &Case<'_>) -> Result<(), Fail> {
    let mut shapes = Shapes::new(alloc);
    for (x0, y0, x1, y1) in case.rects {
        shapes.add_rect(alloc, rect(*x0, *y0, *x1, *y1))?;
    }
    let region = shapes.union(alloc)?;
    assert_eq!(rt; region.rects().len(), case.rects.len());
    let file = polygon_file(alloc, &region, 1)?;
    assert_eq!(rt; file.as_slice(), file_of(alloc, case.polygons)?.as_slice());
    let back = read_back(alloc, file.as_slice(), &pick(alloc, b"MASK", 1)?)?;
    assert_eq!(rt; back.rects(), region.rects());
    Ok(())
}

#[test]
fn polygons_of_masks(rt: HostRuntime) -> Result<(), Fail> {
    let alloc = rt.alloc();
    for case in [
        CROSS,
        NESTED,
        SIDE_BY_SIDE,
        AT_A_CORNER,
        ON_ONE_POINT,
        APART,
    ] {
        check(&rt, alloc, &case)?;
    }
    for case in [RANDOM_0, RANDOM_1, RANDOM_2, RANDOM_3] {
        check(&rt, alloc, &case)?;
    }
    Ok(())
}

#[test]
fn no_mask_and_the_farthest_one(rt: HostRuntime) -> Result<(), Fail> {
    let alloc = rt.alloc();
    let none = polygon_file(alloc, &Region::from_rects(Vec::new(alloc)), 1)?;
    assert_eq!(rt; none.as_slice().len(), 106);
    let far = rect(-1048128, 1048127, 1048128, 1048128);
    let region = Region::from_rects([far].to_vec(alloc)?);
    let file = polygon_file(alloc, &region, 1000)?;
    assert_eq!(rt; file.as_slice().len(), 170);
    Ok(())
}

/// A bar with so many teeth, the first of which stands at its left end or one pixel further right, and with a hole or none.
fn comb(alloc: Global, teeth: u16, first: u8, hole: bool) -> Result<Region, Fail>
    ensures { IfOk result (All (IsRectWithin 1048000)) }
{
    let mut shapes = Shapes::new(alloc);
    let end = i32::from(teeth) * 4 + 4;
    let bars = [rect(0, 0, end, 1), rect(0, 3, end, 4), rect(2, 1, end, 3)];
    for bar in bars {
        shapes.add_rect(alloc, bar)?;
    }
    shapes.add_rect(alloc, rect(0, 1, if hole { 1 } else { 2 }, 3))?;
    for k in 0..teeth {
        let left = i32::from(k) * 4 + i32::from(first);
        shapes.add_rect(alloc, rect(left, 4, left + 2, 7))?;
    }
    Ok(shapes.union(alloc)?)
}

// 2,047 teeth have 4 + 4 * 2,047 - 2 corners where the first is flush with the bar: with one point more, the limit. 2,045
// teeth and a hole have 4 + 4 * 2,045 + 4 corners: with three points for the hole and one, one too many for a polygon. So
// the four rectangles of the bar and the teeth have 64 bytes each.
#[test]
fn combs_at_the_limit(rt: HostRuntime) -> Result<(), Fail> {
    let alloc = rt.alloc();
    let most = polygon_file(alloc, &comb(alloc, 2047, 0, false)?, 1)?;
    assert_eq!(rt; most.as_slice().len(), 106 + 24 + 8 * 8191);
    let over = polygon_file(alloc, &comb(alloc, 2045, 1, true)?, 1)?;
    assert_eq!(rt; over.as_slice().len(), 106 + 64 * (4 + 2045));
    Ok(())
}
