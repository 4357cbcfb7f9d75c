//! The intensity at pixels of small layouts.

use crate::files::{NINE, ONES, SQUARE, Sides, kernel_of, layout_of};
use crate::runs::check_calm;
use opc_base::NoMemory;
use std::alloc::Global;
use std::process::Abort;
use std::thread::Threads;

/// What `probe` says at each pixel.
fn check_pixels<R: Threads + Abort + Sync>(
    rt: &R,
    alloc: Global,
    rectangles: &[Sides],
    parts: &[u8; 9],
    rows: &[(i32, i32, u32)],
) -> Result<(), NoMemory> {
    let layout = layout_of(alloc, rectangles)?;
    let kernels = kernel_of(alloc, parts)?;
    for (x, y, intensity) in rows {
        let line = format!(in alloc; "probe layout kernels TOP 1 0 {x} {y}")?;
        let said = format!(in alloc; "intensity {intensity}\n")?;
        check_calm(rt, alloc, &line, (&layout, &kernels), (0, &said))?;
    }
    Ok(())
}

#[test]
fn a_square_under_nine_entries(rt: HostRuntime) -> Result<(), NoMemory> {
    let rows = [
        (-2, -2, 0),
        (-1, -1, 1),
        (0, 0, 144),
        (5, 5, 2025),
        (9, 9, 784),
        (10, 10, 81),
        (11, 11, 0),
    ];
    check_pixels(&rt, rt.alloc(), &[SQUARE], &NINE, &rows)
}

#[test]
fn a_square_under_ones(rt: HostRuntime) -> Result<(), NoMemory> {
    let rows = [(5, 5, 81), (0, 5, 36), (-1, 5, 9), (10, 10, 1)];
    check_pixels(&rt, rt.alloc(), &[SQUARE], &ONES, &rows)
}

#[test]
fn an_overlap_counts_once(rt: HostRuntime) -> Result<(), NoMemory> {
    check_pixels(
        &rt,
        rt.alloc(),
        &[SQUARE, [5, 0, 15, 10]],
        &ONES,
        &[(7, 5, 81)],
    )
}
