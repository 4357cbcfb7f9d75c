//! Layouts with something wrong, and the line that is said of it.

use crate::files::{ONES, SQUARE, kernel_of, layout_of};
use crate::runs::check_calm;
use opc_base::NoMemory;
use std::alloc::Global;
use std::process::Abort;
use std::thread::Threads;

const PROBE: &str = "probe layout kernels TOP 1 0 5 5";

/// What is said of a layout.
fn check_layout<R: Threads + Abort + Sync>(
    rt: &R,
    alloc: Global,
    layout: &[u8],
    wanted: (u8, &str),
) -> Result<(), NoMemory> {
    let kernels = kernel_of(alloc, &ONES)?;
    check_calm(rt, alloc, PROBE, (layout, &kernels), wanted)
}

/// A square, with this byte in place of one of its own.
fn with_byte(alloc: Global, at: usize, byte: u8) -> Result<Vec<u8>, NoMemory> {
    let mut layout = layout_of(alloc, &[SQUARE])?;
    if let Some(place) = layout.get_mut(at) {
        *place = byte;
    }
    Ok(layout)
}

/// A square, and these bytes after its end.
fn with_tail(alloc: Global, tail: &[u8]) -> Result<Vec<u8>, NoMemory> {
    let mut layout = layout_of(alloc, &[SQUARE])?;
    layout.extend_from_slice(tail)?;
    Ok(layout)
}

/// A square without the bytes from here on.
fn cut(alloc: Global, len: usize) -> Result<Vec<u8>, NoMemory> {
    let mut layout = layout_of(alloc, &[SQUARE])?;
    layout.truncate(len);
    Ok(layout)
}

#[test]
fn bytes_after_the_end(rt: HostRuntime) -> Result<(), NoMemory> {
    let alloc = rt.alloc();
    let whole = (0, "intensity 81\n");
    let trailing = (5, "opc: layout: trailing byte at 200\n");
    let mut tail = [0; 78];
    check_layout(&rt, alloc, &with_tail(alloc, &[0])?, whole)?;
    check_layout(&rt, alloc, &with_tail(alloc, &tail)?, whole)?;
    tail[30] = 1;
    check_layout(&rt, alloc, &with_tail(alloc, &tail)?, trailing)
}

#[test]
fn a_layout_that_is_cut(rt: HostRuntime) -> Result<(), NoMemory> {
    let alloc = rt.alloc();
    check_layout(
        &rt,
        alloc,
        &cut(alloc, 130)?,
        (5, "opc: layout: cut at 114\n"),
    )?;
    check_layout(
        &rt,
        alloc,
        &cut(alloc, 166)?,
        (5, "opc: layout: cut at 166\n"),
    )
}

#[test]
fn a_record_that_is_wrong(rt: HostRuntime) -> Result<(), NoMemory> {
    let alloc = rt.alloc();
    let length = (5, "opc: layout: bad length at 158\n");
    let layer = (5, "opc: layout: unexpected record 13 at 108\n");
    check_layout(&rt, alloc, &with_byte(alloc, 159, 5)?, length)?;
    check_layout(&rt, alloc, &with_byte(alloc, 110, 13)?, layer)
}
