//! Which answer comes where several things are wrong, and where calls of the host fail.

use crate::files::{ONES, SQUARE, kernel_of, layout_of};
use crate::hosts::{one, two};
use crate::runs::{check, check_calm};
use opc_base::{Fail, NoMemory};
use std::alloc::Global;

const PROBE: &str = "probe layout kernels TOP 1 0 5 5";

/// A kernel file without its last byte.
fn cut_kernel(alloc: Global) -> Result<Vec<u8>, NoMemory> {
    let mut bytes = kernel_of(alloc, &ONES)?;
    let _ = bytes.pop();
    Ok(bytes)
}

#[test]
fn files_that_are_refused(rt: HostRuntime) -> Result<(), NoMemory> {
    let alloc = rt.alloc();
    let layout = layout_of(alloc, &[SQUARE])?;
    let kernels = kernel_of(alloc, &ONES)?;
    let cut = cut_kernel(alloc)?;
    let long = vec![in alloc; 0u8; 1_065_073]?;
    let (layout, kernels) = (layout.as_slice(), kernels.as_slice());
    let (cut, long) = (cut.as_slice(), long.as_slice());
    let no_layout = b"no layout".as_slice();
    let bad_length = (5, "opc: layout: bad length at 0\n");
    let no_top = (5, "opc: layout: no top structure\n");
    let wrong = (6, "opc: kernels: wrong length\n");
    let too_long = (6, "opc: kernels: too long\n");
    let unread = (3, "opc: cannot read none\n");
    let words = (2, "opc: words\n");
    let rows = [
        (PROBE, (layout, cut), wrong),
        (PROBE, (no_layout, cut), wrong),
        (PROBE, (no_layout, long), too_long),
        (PROBE, (no_layout, kernels), bad_length),
        (
            "probe layout kernels NONE 1 0 5 5",
            (layout, kernels),
            no_top,
        ),
        ("probe none kernels TOP 1 0 5 5", (layout, cut), unread),
        ("probe layout none TOP 1 0 5 5", (no_layout, cut), unread),
        ("probe none none TOP 1 0 5 5e1", (layout, cut), words),
    ];
    for (line, files, wanted) in rows {
        check_calm(&rt, alloc, line, files, wanted)?;
    }
    Ok(())
}

#[test]
fn each_call_fails_in_turn(rt: HostRuntime) -> Result<(), NoMemory> {
    let alloc = rt.alloc();
    let layout = layout_of(alloc, &[SQUARE])?;
    let kernels = kernel_of(alloc, &ONES)?;
    let files = (layout.as_slice(), kernels.as_slice());
    check(
        &rt,
        alloc,
        PROBE,
        files,
        one(alloc, 1, 0)?,
        (3, "opc: cannot read layout\n"),
    )?;
    check(
        &rt,
        alloc,
        PROBE,
        files,
        one(alloc, 2, 0)?,
        (3, "opc: cannot read kernels\n"),
    )?;
    check(&rt, alloc, PROBE, files, one(alloc, 3, 4)?, (4, "inte"))?;
    check(
        &rt,
        alloc,
        PROBE,
        files,
        one(alloc, 4, 0)?,
        (0, "intensity 81\n"),
    )
}

#[test]
fn the_line_of_a_fault_fails_too(rt: HostRuntime) -> Result<(), NoMemory> {
    let alloc = rt.alloc();
    let layout = layout_of(alloc, &[SQUARE])?;
    let kernels = kernel_of(alloc, &ONES)?;
    let files = (layout.as_slice(), kernels.as_slice());
    let cut = cut_kernel(alloc)?;
    let cut = (layout.as_slice(), cut.as_slice());
    let loads = two(alloc, Fail { call: 1, keep: 0 }, Fail { call: 2, keep: 5 })?;
    check(&rt, alloc, PROBE, files, loads, (3, "opc: "))?;
    check(&rt, alloc, PROBE, cut, one(alloc, 3, 7)?, (6, "opc: ke"))?;
    let refused = (b"no layout".as_slice(), kernels.as_slice());
    check(
        &rt,
        alloc,
        PROBE,
        refused,
        one(alloc, 3, 9)?,
        (5, "opc: layo"),
    )?;
    check(
        &rt,
        alloc,
        "probe layout",
        files,
        one(alloc, 1, 0)?,
        (2, ""),
    )
}
