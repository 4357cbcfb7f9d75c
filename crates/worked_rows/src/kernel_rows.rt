//! Kernel files at their limits, and masks of two transmissions.

use crate::files::{SQUARE, Sides, largest_kernels, layout_of, masked_kernel_of};
use crate::runs::check_calm;
use opc_base::NoMemory;
use std::alloc::Global;
use std::process::Abort;
use std::thread::Threads;

const CENTRE: &str = "probe layout kernels TOP 1 0 0 0";

/// What `probe` says at each pixel of a square, under nine equal entries and these transmissions.
fn check_masked<R: Threads + Abort + Sync>(
    rt: &R,
    alloc: Global,
    transmissions: &[i16; 4],
    entry: &[i16; 2],
    rows: &[(i32, i32, u32)],
) -> Result<(), NoMemory> {
    let layout = layout_of(alloc, &[SQUARE])?;
    let kernels = masked_kernel_of(alloc, transmissions, entry)?;
    for (x, y, intensity) in rows {
        let line = format!(in alloc; "probe layout kernels TOP 1 0 {x} {y}")?;
        let said = format!(in alloc; "intensity {intensity}\n")?;
        check_calm(rt, alloc, &line, (&layout, &kernels), (0, &said))?;
    }
    Ok(())
}

#[test]
fn a_mask_of_two_transmissions(rt: HostRuntime) -> Result<(), NoMemory> {
    let rows = [(0, 0, 89), (5, 5, 324), (0, 5, 153), (-9, -9, 81)];
    check_masked(&rt, rt.alloc(), &[2, 0, 0, 1], &[1, 0], &rows)?;
    check_masked(&rt, rt.alloc(), &[2, 0, 0, 1], &[1, 1], &[(0, 0, 178)])
}

#[test]
fn a_transmission_out_of_range(rt: HostRuntime) -> Result<(), NoMemory> {
    let alloc = rt.alloc();
    let layout = layout_of(alloc, &[SQUARE])?;
    let kernels = masked_kernel_of(alloc, &[9, 0, 0, 1], &[1, 0])?;
    let refused = (6, "opc: kernels: bad transmission at 8\n");
    check_calm(&rt, alloc, CENTRE, (&layout, &kernels), refused)
}

/// What `probe` says at the origin, under the largest kernels with this head.
fn check_largest<R: Threads + Abort + Sync>(
    rt: &R,
    alloc: Global,
    sides: Sides,
    kernels: (&[u8], u8, &[u8; 4]),
    wanted: (u8, &str),
) -> Result<(), NoMemory> {
    let layout = layout_of(alloc, &[sides])?;
    let kernels = largest_kernels(alloc, kernels.0, kernels.1, kernels.2)?;
    check_calm(rt, alloc, CENTRE, (&layout, &kernels), wanted)
}

#[test]
fn the_greatest_intensities(rt: HostRuntime) -> Result<(), NoMemory> {
    let alloc = rt.alloc();
    let wide = [-100, -100, 100, 100];
    let open = b"OPK1\x00\x10\x00\x40";
    let masked = b"OPK2\x00\x10\x00\x40\x00\x08\x00\x08\x00\x08\x00\x08";
    let first = (open.as_slice(), 128, &[8, 0, 8, 0]);
    let heavy = (open.as_slice(), 129, &[8, 0, 8, 0]);
    let second = (masked.as_slice(), 128, &[0, 128, 0, 128]);
    let weights = (6, "opc: kernels: weights sum\n");
    check_largest(
        &rt,
        alloc,
        wide,
        first,
        (0, "intensity 4757498869636399104\n"),
    )?;
    check_largest(&rt, alloc, wide, heavy, weights)?;
    check_largest(
        &rt,
        alloc,
        SQUARE,
        second,
        (0, "intensity 2378749434818199552\n"),
    )
}
