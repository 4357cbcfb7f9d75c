//! Which fault of a layout is named where several things are wrong.

use crate::drawing::{Drawing, Line, Point, TWO, Turn, UPRIGHT};
use crate::files::{ONES, kernel_of};
use crate::runs::{check_calm, check_cover, check_refused};
use opc_base::NoMemory;
use std::alloc::Global;
use std::process::Abort;
use std::thread::Threads;

/// The real 45.
const EIGHTH: [u8; 8] = [0x42, 0x2d, 0, 0, 0, 0, 0, 0];

/// The first coordinate that is too far.
const FAR: i32 = 1_048_001;

/// A layout whose top structure refers to one that is missing, and is followed by this byte.
fn missing(alloc: Global, byte: u8) -> Result<Vec<u8>, NoMemory> {
    let mut drawing = Drawing::new(alloc)?;
    drawing.copy(b"NONE", UPRIGHT, (0, 0))?;
    let mut bytes = drawing.end()?;
    bytes.push(byte)?;
    Ok(bytes)
}

/// What is said of the structure `NONE`.
fn check_none<R: Threads + Abort + Sync>(
    rt: &R,
    alloc: Global,
    layout: &[u8],
    line: &str,
) -> Result<(), NoMemory> {
    let kernels = kernel_of(alloc, &ONES)?;
    let words = "probe layout kernels NONE 1 0 5 5";
    check_calm(rt, alloc, words, (layout, &kernels), (5, line))
}

#[test]
fn the_file_before_the_top_before_references(rt: HostRuntime) -> Result<(), NoMemory> {
    let alloc = rt.alloc();
    let trailing = "opc: layout: trailing byte at 140\n";
    let no_top = "opc: layout: no top structure\n";
    let gone = "opc: layout: missing structure at 98\n";
    check_none(&rt, alloc, &missing(alloc, 1)?, trailing)?;
    check_none(&rt, alloc, &missing(alloc, 0)?, no_top)?;
    check_refused(&rt, alloc, &missing(alloc, 0)?, gone)
}

/// An array of this structure with a magnification, an angle or neither, and no columns.
fn wrong_array(
    alloc: Global,
    name: &[u8],
    mag: Option<[u8; 8]>,
    angle: Option<[u8; 8]>,
) -> Result<Vec<u8>, NoMemory> {
    let turn = Turn {
        flip: false,
        mag,
        angle,
    };
    let mut drawing = Drawing::new(alloc)?;
    drawing.array(name, turn, (0, 1), &[(0, 0), (0, 0), (0, 0)])?;
    drawing.structure(b"CELL")?;
    drawing.end()
}

#[test]
fn what_is_wrong_with_one_reference(rt: HostRuntime) -> Result<(), NoMemory> {
    let alloc = rt.alloc();
    let mag = Some(TWO);
    let angle = Some(EIGHTH);
    let rows = [
        (
            wrong_array(alloc, b"NONE", mag, angle)?,
            "missing structure",
        ),
        (
            wrong_array(alloc, b"CELL", mag, angle)?,
            "bad magnification",
        ),
        (wrong_array(alloc, b"CELL", None, angle)?, "bad angle"),
        (wrong_array(alloc, b"CELL", None, None)?, "bad array"),
    ];
    for (layout, fault) in rows {
        let line = format!(in alloc; "opc: layout: {fault} at 98\n")?;
        check_refused(&rt, alloc, &layout, &line)?;
    }
    Ok(())
}

#[test]
fn the_lowest_wrong_reference(rt: HostRuntime) -> Result<(), NoMemory> {
    let alloc = rt.alloc();
    let large = Turn {
        mag: Some(TWO),
        ..UPRIGHT
    };
    let eighth = Turn {
        angle: Some(EIGHTH),
        ..UPRIGHT
    };
    let mut drawing = Drawing::new(alloc)?;
    drawing.copy(b"CELL", UPRIGHT, (0, 0))?;
    drawing.copy(b"CELL", large, (0, 0))?;
    drawing.structure(b"CELL")?;
    drawing.copy(b"CELL", eighth, (0, 0))?;
    let line = "opc: layout: bad magnification at 132\n";
    check_refused(&rt, alloc, &drawing.end()?, line)
}

/// A structure that refers to itself, then to this one, and then to 32,767 by 32,767 squares.
fn cycle_and(alloc: Global, name: &[u8]) -> Result<Vec<u8>, NoMemory> {
    let mut drawing = Drawing::new(alloc)?;
    drawing.copy(b"TOP\0", UPRIGHT, (0, 0))?;
    drawing.copy(name, UPRIGHT, (0, 0))?;
    put_many(&mut drawing)?;
    drawing.structure(b"CELL")?;
    drawing.square(0, 0, 1)?;
    drawing.end()
}

fn put_many(drawing: &mut Drawing) -> Result<(), NoMemory> {
    let points = [(0, 0), (32_767, 0), (0, 32_767)];
    drawing.array(b"CELL", UPRIGHT, (32_767, 32_767), &points)
}

#[test]
fn references_before_cycles_before_points(rt: HostRuntime) -> Result<(), NoMemory> {
    let alloc = rt.alloc();
    let gone = "opc: layout: missing structure at 132\n";
    let cycle = "opc: layout: cycle through structure 0\n";
    check_refused(&rt, alloc, &cycle_and(alloc, b"NONE")?, gone)?;
    check_refused(&rt, alloc, &cycle_and(alloc, b"CELL")?, cycle)
}

#[test]
fn points_before_shapes(rt: HostRuntime) -> Result<(), NoMemory> {
    let alloc = rt.alloc();
    let mut drawing = Drawing::new(alloc)?;
    drawing.boundary(&[(0, 0), (1, 0), (1, 1)])?;
    put_many(&mut drawing)?;
    drawing.structure(b"CELL")?;
    drawing.square(0, 0, 1)?;
    let too_many = "opc: layout: too many points 5368381448\n";
    check_refused(&rt, alloc, &drawing.end()?, too_many)
}

#[test]
fn shapes_before_corners(rt: HostRuntime) -> Result<(), NoMemory> {
    let alloc = rt.alloc();
    let mut drawing = Drawing::new(alloc)?;
    drawing.array(b"CELL", UPRIGHT, (129, 129), &[(0, 0), (258, 0), (0, 258)])?;
    drawing.boundary(&[(0, 0), (1, 0), (1, 1)])?;
    drawing.structure(b"CELL")?;
    drawing.square(0, 0, 1)?;
    let not_closed = "opc: layout: not closed at 156\n";
    check_refused(&rt, alloc, &drawing.end()?, not_closed)
}

#[test]
fn the_first_wrong_shape_that_is_placed(rt: HostRuntime) -> Result<(), NoMemory> {
    let alloc = rt.alloc();
    let mut drawing = Drawing::new(alloc)?;
    drawing.copy(b"CELL", UPRIGHT, (0, 0))?;
    drawing.boundary(&[(0, 0), (1, 0)])?;
    drawing.structure(b"CELL")?;
    drawing.boundary(&[(0, 0), (1, 1), (0, 0)])?;
    let not_rectilinear = "opc: layout: not rectilinear at 212\n";
    check_refused(&rt, alloc, &drawing.end()?, not_rectilinear)
}

/// A layout of one polygon.
fn polygon(alloc: Global, points: &[Point]) -> Result<Vec<u8>, NoMemory> {
    let mut drawing = Drawing::new(alloc)?;
    drawing.boundary(points)?;
    drawing.end()
}

#[test]
fn what_is_wrong_with_one_polygon(rt: HostRuntime) -> Result<(), NoMemory> {
    let alloc = rt.alloc();
    let open = polygon(alloc, &[(0, 0), (FAR, 5)])?;
    let slanted = polygon(alloc, &[(0, 0), (FAR, 5), (0, 0)])?;
    let far = polygon(alloc, &[(0, 0), (FAR, 0), (0, 0)])?;
    let near = polygon(alloc, &[(0, 0), (FAR - 1, 0), (0, 0)])?;
    check_refused(&rt, alloc, &open, "opc: layout: not closed at 98\n")?;
    check_refused(&rt, alloc, &slanted, "opc: layout: not rectilinear at 98\n")?;
    check_refused(&rt, alloc, &far, "opc: layout: out of range at 98\n")?;
    check_cover(&rt, alloc, &near, &[(5, 0, 0)])
}

/// A layout of one path.
fn path(alloc: Global, ends: i16, points: &[Point]) -> Result<Vec<u8>, NoMemory> {
    let line = Line {
        ends,
        width: 5,
        begin: 0,
        end: 0,
    };
    let mut drawing = Drawing::new(alloc)?;
    drawing.path(&line, points)?;
    drawing.end()
}

#[test]
fn what_is_wrong_with_one_path(rt: HostRuntime) -> Result<(), NoMemory> {
    let alloc = rt.alloc();
    let slanted = path(alloc, 1, &[(0, 0), (FAR, 5)])?;
    let round = path(alloc, 1, &[(0, 0), (FAR, 0)])?;
    let odd = path(alloc, 0, &[(0, 0), (FAR, 0)])?;
    check_refused(&rt, alloc, &slanted, "opc: layout: not rectilinear at 98\n")?;
    check_refused(&rt, alloc, &round, "opc: layout: path ends at 98\n")?;
    check_refused(&rt, alloc, &odd, "opc: layout: off grid at 98\n")
}
