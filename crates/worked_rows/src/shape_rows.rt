//! What polygons, boxes and paths cover.

use crate::drawing::{Drawing, Line, UPRIGHT};
use crate::runs::{check_cover, check_refused};
use opc_base::NoMemory;
use std::alloc::Global;

/// A path with a bend.
fn bent_path(alloc: Global, ends: i16, width: i32) -> Result<Vec<u8>, NoMemory> {
    let line = Line {
        ends,
        width,
        begin: 2,
        end: 5,
    };
    let mut drawing = Drawing::new(alloc)?;
    drawing.path(&line, &[(0, 0), (20, 0), (20, 20)])?;
    drawing.end()
}

#[test]
fn a_path_with_a_bend(rt: HostRuntime) -> Result<(), NoMemory> {
    let alloc = rt.alloc();
    let rows = [
        (-2, -3, 1),
        (-3, -3, 0),
        (22, -3, 1),
        (23, 0, 0),
        (16, 3, 0),
        (17, 24, 1),
        (17, 25, 0),
        (-2, 2, 1),
    ];
    check_cover(&rt, alloc, &bent_path(alloc, 4, 6)?, &rows)?;
    check_cover(&rt, alloc, &bent_path(alloc, 4, -6)?, &rows)
}

#[test]
fn paths_that_are_refused(rt: HostRuntime) -> Result<(), NoMemory> {
    let alloc = rt.alloc();
    let off_grid = "opc: layout: off grid at 98\n";
    let path_ends = "opc: layout: path ends at 98\n";
    check_refused(&rt, alloc, &bent_path(alloc, 4, 5)?, off_grid)?;
    check_refused(&rt, alloc, &bent_path(alloc, 1, 6)?, path_ends)
}

#[test]
fn nothing_is_covered(rt: HostRuntime) -> Result<(), NoMemory> {
    let alloc = rt.alloc();
    let empty = Drawing::new(alloc)?.end()?;
    check_cover(&rt, alloc, &empty, &[(0, 0, 0)])?;
    check_cover(&rt, alloc, &bent_path(alloc, 0, 0)?, &[(10, 0, 0)])
}

#[test]
fn a_keyhole(rt: HostRuntime) -> Result<(), NoMemory> {
    let alloc = rt.alloc();
    let mut drawing = Drawing::new(alloc)?;
    drawing.boundary(&[
        (20, 0),
        (30, 0),
        (30, 10),
        (20, 10),
        (20, 5),
        (23, 5),
        (23, 7),
        (27, 7),
        (27, 3),
        (23, 3),
        (23, 5),
        (20, 5),
        (20, 0),
    ])?;
    let rows = [
        (20, 4, 1),
        (22, 5, 1),
        (23, 3, 0),
        (26, 6, 0),
        (27, 3, 1),
        (29, 9, 1),
    ];
    check_cover(&rt, alloc, &drawing.end()?, &rows)
}

#[test]
fn windings_are_not_added_up(rt: HostRuntime) -> Result<(), NoMemory> {
    let alloc = rt.alloc();
    let mut drawing = Drawing::new(alloc)?;
    drawing.boundary(&[(0, 0), (10, 0), (10, 4), (0, 4), (0, 0)])?;
    drawing.box_shape(&[(5, 2), (5, 8), (12, 8), (12, 2), (5, 2)])?;
    let rows = [(9, 1, 1), (10, 1, 0), (7, 3, 1), (4, 5, 0), (11, 7, 1)];
    check_cover(&rt, alloc, &drawing.end()?, &rows)
}

/// So many columns and rows of squares of one pixel, with a pixel between them.
fn squares(alloc: Global, columns: i16, rows: i16) -> Result<Vec<u8>, NoMemory> {
    let right = 2 * i32::from(columns);
    let top = 2 * i32::from(rows);
    let mut drawing = Drawing::new(alloc)?;
    drawing.array(
        b"CELL",
        UPRIGHT,
        (columns, rows),
        &[(0, 0), (right, 0), (0, top)],
    )?;
    drawing.structure(b"CELL")?;
    drawing.square(0, 0, 1)?;
    drawing.end()
}

#[test]
fn the_most_corners(rt: HostRuntime) -> Result<(), NoMemory> {
    let alloc = rt.alloc();
    let most = squares(alloc, 128, 128)?;
    let more = squares(alloc, 129, 128)?;
    let too_many = "opc: layout: too many corners\n";
    check_cover(&rt, alloc, &most, &[(254, 254, 1), (253, 254, 0)])?;
    check_refused(&rt, alloc, &more, too_many)
}

/// 128 copies of a square of 8,190 points at one place, which have 1,048,320 points, and a path without width of this many.
fn many_points(alloc: Global, more: usize) -> Result<Vec<u8>, NoMemory> {
    let line = Line {
        ends: 0,
        width: 0,
        begin: 0,
        end: 0,
    };
    let mut square = vec![in alloc; (0, 0); 8_186]?;
    square.extend_from_slice(&[(10, 0), (10, 10), (0, 10), (0, 0)])?;
    let mut drawing = Drawing::new(alloc)?;
    drawing.array(b"CELL", UPRIGHT, (128, 1), &[(0, 0), (0, 0), (0, 0)])?;
    drawing.path(&line, &vec![in alloc; (0, 0); more]?)?;
    drawing.structure(b"CELL")?;
    drawing.boundary(&square)?;
    drawing.end()
}

#[test]
fn the_most_points(rt: HostRuntime) -> Result<(), NoMemory> {
    let alloc = rt.alloc();
    let too_many = "opc: layout: too many points 1048577\n";
    check_cover(&rt, alloc, &many_points(alloc, 256)?, &[(9, 9, 1)])?;
    check_refused(&rt, alloc, &many_points(alloc, 257)?, too_many)
}
