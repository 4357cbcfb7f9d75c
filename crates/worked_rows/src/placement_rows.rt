//! Where references place shapes.

use crate::drawing::{Drawing, HALF_TURN, NINETY, THREE_QUARTERS, TWO, Turn, UPRIGHT};
use crate::runs::{check_cover, check_refused};
use opc_base::NoMemory;
use std::alloc::Global;
use std::process::Abort;
use std::thread::Threads;

/// Three columns and two rows of a rectangle of 4 by 2 that is reflected and turned; the array's second point is this far
/// to the right.
fn rows_of_cells(alloc: Global, right: i32) -> Result<Vec<u8>, NoMemory> {
    let turn = Turn {
        flip: true,
        mag: None,
        angle: Some(NINETY),
    };
    let mut drawing = Drawing::new(alloc)?;
    drawing.array(b"CELL", turn, (3, 2), &[(100, 50), (right, 50), (100, 70)])?;
    drawing.structure(b"CELL")?;
    drawing.boundary(&[(0, 0), (4, 0), (4, 2), (0, 2), (0, 0)])?;
    drawing.end()
}

#[test]
fn an_array_of_turned_cells(rt: HostRuntime) -> Result<(), NoMemory> {
    let alloc = rt.alloc();
    let rows = [
        (100, 50, 1),
        (101, 53, 1),
        (102, 50, 0),
        (100, 54, 0),
        (121, 53, 1),
        (110, 60, 1),
        (121, 63, 1),
        (100, 70, 0),
        (130, 50, 0),
    ];
    check_cover(&rt, alloc, &rows_of_cells(alloc, 130)?, &rows)?;
    let bad_array = "opc: layout: bad array at 98\n";
    check_refused(&rt, alloc, &rows_of_cells(alloc, 131)?, bad_array)
}

/// A copy of an L of three pixels to the right and two upward.
fn copied_l(alloc: Global, turn: Turn) -> Result<Vec<u8>, NoMemory> {
    let mut drawing = Drawing::new(alloc)?;
    drawing.copy(b"CELL", turn, (0, 0))?;
    drawing.structure(b"CELL")?;
    put_l(&mut drawing)?;
    drawing.end()
}

fn put_l(drawing: &mut Drawing) -> Result<(), NoMemory> {
    drawing.boundary(&[(0, 0), (3, 0), (3, 1), (1, 1), (1, 2), (0, 2), (0, 0)])
}

/// An L that is reflected or not and turned covers its two ends, and not its longer end transposed.
fn check_l<R: Threads + Abort + Sync>(
    rt: &R,
    alloc: Global,
    turn: (bool, Option<[u8; 8]>),
    long: (i32, i32),
    short: (i32, i32),
) -> Result<(), NoMemory> {
    let turn = Turn {
        flip: turn.0,
        mag: None,
        angle: turn.1,
    };
    let rows = [
        (long.0, long.1, 1),
        (short.0, short.1, 1),
        (long.1, long.0, 0),
    ];
    check_cover(rt, alloc, &copied_l(alloc, turn)?, &rows)
}

#[test]
fn four_turns_of_an_l(rt: HostRuntime) -> Result<(), NoMemory> {
    let alloc = rt.alloc();
    check_l(&rt, alloc, (false, None), (2, 0), (0, 1))?;
    check_l(&rt, alloc, (false, Some(NINETY)), (-1, 2), (-2, 0))?;
    check_l(&rt, alloc, (false, Some(HALF_TURN)), (-3, -1), (-1, -2))?;
    check_l(&rt, alloc, (false, Some(THREE_QUARTERS)), (0, -3), (1, -1))
}

#[test]
fn four_turns_of_a_reflected_l(rt: HostRuntime) -> Result<(), NoMemory> {
    let alloc = rt.alloc();
    check_l(&rt, alloc, (true, None), (2, -1), (0, -2))?;
    check_l(&rt, alloc, (true, Some(NINETY)), (0, 2), (1, 0))?;
    check_l(&rt, alloc, (true, Some(HALF_TURN)), (-3, 0), (-1, 1))?;
    check_l(&rt, alloc, (true, Some(THREE_QUARTERS)), (-1, -3), (-2, -1))
}

/// An L that is reflected, turned by half and shifted by (10, 20), and all of that turned by a quarter and shifted by
/// (100, 0).
fn nested_l(alloc: Global) -> Result<Vec<u8>, NoMemory> {
    let outer = Turn {
        angle: Some(NINETY),
        ..UPRIGHT
    };
    let inner = Turn {
        flip: true,
        mag: None,
        angle: Some(HALF_TURN),
    };
    let mut drawing = Drawing::new(alloc)?;
    drawing.copy(b"PAIR", outer, (100, 0))?;
    drawing.structure(b"PAIR")?;
    drawing.copy(b"CELL", inner, (10, 20))?;
    drawing.structure(b"CELL")?;
    put_l(&mut drawing)?;
    drawing.end()
}

#[test]
fn a_reflection_within_a_turn(rt: HostRuntime) -> Result<(), NoMemory> {
    let alloc = rt.alloc();
    let rows = [(79, 7, 1), (78, 9, 1), (79, 10, 0), (80, 7, 0)];
    check_cover(&rt, alloc, &nested_l(alloc)?, &rows)
}

#[test]
fn spellings_of_an_angle(rt: HostRuntime) -> Result<(), NoMemory> {
    let alloc = rt.alloc();
    let ninety = [0x43, 0x05, 0xa0, 0, 0, 0, 0, 0];
    let back = [0xc2, 0x5a, 0, 0, 0, 0, 0, 0];
    check_l(&rt, alloc, (false, Some(ninety)), (-1, 2), (-2, 0))?;
    check_l(&rt, alloc, (false, Some(back)), (0, -3), (1, -1))?;
    let half = Turn {
        angle: Some([0x42, 0x2d, 0, 0, 0, 0, 0, 0]),
        ..UPRIGHT
    };
    let bad_angle = "opc: layout: bad angle at 98\n";
    check_refused(&rt, alloc, &copied_l(alloc, half)?, bad_angle)
}

#[test]
fn a_magnified_copy(rt: HostRuntime) -> Result<(), NoMemory> {
    let alloc = rt.alloc();
    let large = Turn {
        mag: Some(TWO),
        ..UPRIGHT
    };
    let bad_magnification = "opc: layout: bad magnification at 98\n";
    check_refused(&rt, alloc, &copied_l(alloc, large)?, bad_magnification)?;
    let mut drawing = Drawing::new(alloc)?;
    drawing.large_text()?;
    drawing.square(0, 0, 10)?;
    drawing.structure(b"REST")?;
    drawing.copy(b"TOP\0", large, (0, 0))?;
    check_cover(&rt, alloc, &drawing.end()?, &[(9, 9, 1), (10, 10, 0)])
}

/// A name of four letters for each number below 65,536.
fn name_of(number: u32) -> [u8; 4] {
    [
        letter(number / 4096),
        letter(number / 256),
        letter(number / 16),
        letter(number),
    ]
}

fn letter(number: u32) -> u8 {
    b'A' + (number % 16) as u8
}

/// So many structures, each a copy of the next; the last has a square.
fn chain(alloc: Global, count: u32) -> Result<Vec<u8>, NoMemory> {
    let mut drawing = Drawing::new(alloc)?;
    for number in 1..count {
        let name = name_of(number);
        drawing.copy(&name, UPRIGHT, (0, 0))?;
        drawing.structure(&name)?;
    }
    drawing.square(0, 0, 10)?;
    drawing.end()
}

#[test]
fn the_longest_chain_of_structures(rt: HostRuntime) -> Result<(), NoMemory> {
    let alloc = rt.alloc();
    check_cover(&rt, alloc, &chain(alloc, 65_535)?, &[(9, 9, 1)])?;
    let too_many = "opc: layout: too many structures at 4849652\n";
    check_refused(&rt, alloc, &chain(alloc, 65_536)?, too_many)
}
