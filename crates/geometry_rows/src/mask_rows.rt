//! Mask files, byte by byte and read back.

use crate::rows::CROSS;
use crate::shapes::{rect, region_of_polygons, region_of_rects};
use crate::written::{HEAD, head, out_pick, pick, read_back, write};
use gds_writer::write_mask;
use opc_base::{OutPick, Pick, Rect, Region};
use std::alloc::Global;
use std::process::Abort;
use std::test::Fail;

const MASK: [u8; 4] = [77, 65, 83, 75];

/// BGNSTR, STRNAME `MASK`.
const STRUCTURE: [u8; 36] = [
    0, 28, 5, 2, 0, 0, 0, 0, 0, 0, 0, 0, 0, 0, 0, 0, 0, 0, 0, 0, 0, 0, 0, 0, 0, 0, 0, 0, 0, 8, 6,
    6, 77, 65, 83, 75,
];

/// BOUNDARY, LAYER 1, DATATYPE 0, XY (-1,-1) (11,-1) (11,11) (-1,11) (-1,-1), ENDEL.
const SQUARE: [u8; 64] = [
    0, 4, 8, 0, 0, 6, 13, 2, 0, 1, 0, 6, 14, 2, 0, 0, 0, 44, 16, 3, 255, 255, 255, 255, 255, 255,
    255, 255, 0, 0, 0, 11, 255, 255, 255, 255, 0, 0, 0, 11, 0, 0, 0, 11, 255, 255, 255, 255, 0, 0,
    0, 11, 255, 255, 255, 255, 255, 255, 255, 255, 0, 4, 17, 0,
];

/// ENDSTR, ENDLIB.
const CLOSING: [u8; 8] = [0, 4, 7, 0, 0, 4, 4, 0];

/// The mask file of these rectangles is the head, the structure's first records, these elements and the closing records.
fn check_bytes<R: Abort>(
    rt: &R,
    alloc: Global,
    rects: &[Rect],
    elements: &[u8],
) -> Result<(), Fail> {
    let region = region_of_rects(alloc, rects)?;
    let file = write(alloc, &region, &out_pick(alloc, &MASK)?, 1)?;
    let wanted = [
        HEAD.as_slice(),
        STRUCTURE.as_slice(),
        elements,
        CLOSING.as_slice(),
    ];
    assert_eq!(rt; file.as_slice(), wanted.concat(alloc)?.as_slice());
    Ok(())
}

#[test]
fn whole_files(rt: HostRuntime) -> Result<(), Fail> {
    let alloc = rt.alloc();
    check_bytes(&rt, alloc, &[], &[])?;
    check_bytes(&rt, alloc, &[rect(-1, -1, 11, 11)], &SQUARE)
}

#[test]
fn a_padded_name_and_the_farthest_coordinates(rt: HostRuntime) -> Result<(), Fail> {
    let alloc = rt.alloc();
    let far = rect(-1048128, 0, 1048128, 1);
    let region = Region::from_rects([far].to_vec(alloc)?);
    let out = out_pick(alloc, &[84, 79, 80])?;
    let file = write_mask(alloc, &head(alloc)?, &region, &out, 1000)?;
    let file = file.as_slice();
    assert_eq!(rt; file.len(), 170);
    assert_eq!(rt; &file[90..98], [0, 8, 6, 6, 84, 79, 80, 0].as_slice());
    let first_points = [193, 134, 214, 0, 0, 0, 0, 0, 62, 121, 42, 0, 0, 0, 0, 0];
    assert_eq!(rt; &file[118..134], first_points.as_slice());
    Ok(())
}

/// The polygons cover these rectangles, and so does their mask file when it is read; it has 64 bytes for each of them.
fn check_file<R: Abort>(
    rt: &R,
    alloc: Global,
    picks: (&OutPick, &Pick),
    polygons: &[&[(i32, i32)]],
    wanted: &[Rect],
) -> Result<(), Fail> {
    let (out, pick) = picks;
    let region = region_of_polygons(alloc, polygons)?;
    assert_eq!(rt; region.rects(), wanted);
    let file = write(alloc, &region, out, pick.grid)?;
    let elements = wanted.len().saturating_mul(64);
    assert_eq!(rt; file.as_slice().len(), elements.saturating_add(106));
    let back = read_back(alloc, file.as_slice(), pick)?;
    assert_eq!(rt; back.rects(), wanted);
    Ok(())
}

// Nothing; two bars that overlap, and a frame round a hole; and coordinates of 1,048,000,000 database units, under a name
// of an odd length.
#[test]
fn files_that_are_read_back(rt: HostRuntime) -> Result<(), Fail> {
    let alloc = rt.alloc();
    let picks = (&out_pick(alloc, &MASK)?, &pick(alloc, &MASK, 1)?);
    let odd = (
        &out_pick(alloc, &MASK[..3])?,
        &pick(alloc, &MASK[..3], 1000)?,
    );
    let cross = [
        rect(0, 0, 10, 2),
        rect(20, 0, 30, 3),
        rect(0, 2, 12, 4),
        rect(20, 3, 23, 7),
        rect(27, 3, 30, 7),
        rect(5, 4, 12, 8),
        rect(20, 7, 30, 10),
    ];
    let far = [
        (-1048000, -1048000),
        (1048000, -1048000),
        (1048000, -1047999),
        (-1048000, -1047999),
        (-1048000, -1048000),
    ];
    let line = [rect(-1048000, -1048000, 1048000, -1047999)];
    check_file(&rt, alloc, picks, &[], &[])?;
    check_file(&rt, alloc, picks, &CROSS, &cross)?;
    check_file(&rt, alloc, odd, &[&far], &line)
}

// The third element: (0, 2) to (12, 4), counterclockwise from its lower left.
#[test]
fn the_points_of_an_element(rt: HostRuntime) -> Result<(), Fail> {
    let alloc = rt.alloc();
    let region = region_of_polygons(alloc, &CROSS)?;
    let file = write(alloc, &region, &out_pick(alloc, &MASK)?, 1)?;
    let bytes = file.as_slice();
    assert_eq!(rt; bytes.len(), 554);
    let element = &bytes[226..290];
    let wanted = [
        0, 4, 8, 0, 0, 6, 13, 2, 0, 1, 0, 6, 14, 2, 0, 0, 0, 44, 16, 3, 0, 0, 0, 0, 0, 0, 0, 2, 0,
        0, 0, 12, 0, 0, 0, 2, 0, 0, 0, 12, 0, 0, 0, 4, 0, 0, 0, 0, 0, 0, 0, 4, 0, 0, 0, 0, 0, 0, 0,
        2, 0, 4, 17, 0,
    ];
    assert_eq!(rt; element, wanted.as_slice());
    Ok(())
}
