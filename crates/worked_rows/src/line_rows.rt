//! Fault lines that no other row has: files that are too long, and what is wrong with kernel files and bodies of records.

use crate::files::{ONES, OPENING, SQUARE, kernel_of, layout_of};
use crate::outputs::{CORRECT, Found, MOVES, check_refused};
use crate::rules::rules_of;
use crate::runs::check_calm;
use opc_base::NoMemory;
use std::alloc::Global;
use std::test::Fail;

const PROBE: &str = "probe layout kernels TOP 1 0 5 5";

#[test]
fn what_is_wrong_with_kernels(rt: HostRuntime) -> Result<(), NoMemory> {
    let alloc = rt.alloc();
    let layout = layout_of(alloc, &[SQUARE])?;
    let rows: [(&[u8], &str); 9] = [
        (b"OPK3\x00\x01\x00\x00\x00\x01\x00\x01\x00\x00", "bad magic"),
        (b"OPK1\x00\x01\x00", "wrong length"),
        (b"OPK1\x00\x00\x00\x00", "bad count"),
        (b"OPK1\x00\x11\x00\x00", "bad count"),
        (b"OPK1\x00\x01\x00\x41", "bad reach"),
        (
            b"OPK1\x00\x01\x00\x00\x00\x00\x00\x01\x00\x00",
            "bad weight of kernel 0",
        ),
        (
            b"OPK1\x00\x01\x00\x00\x00\x01\x08\x01\x00\x00",
            "bad entry at 10",
        ),
        (
            b"OPK1\x00\x01\x00\x00\x00\x01\x00\x01\xf7\xff",
            "bad entry at 12",
        ),
        (
            b"OPK1\x00\x01\x00\x00\x08\x01\x00\x01\x00\x00",
            "weights sum",
        ),
    ];
    for (kernels, fault) in rows {
        let line = format!(in alloc; "opc: kernels: {fault}\n")?;
        check_calm(&rt, alloc, PROBE, (&layout, kernels), (6, &line))?;
    }
    Ok(())
}

/// A BOUNDARY whose LAYER has four bytes.
const WIDE_LAYER: &[u8] = &[0, 4, 8, 0, 0, 8, 13, 2, 0, 1, 0, 0];

/// The end of `TOP`, and a second structure of that name.
const TOP_AGAIN: &[u8] = &[
    0, 4, 7, 0, 0, 28, 5, 2, 0, 0, 0, 0, 0, 0, 0, 0, 0, 0, 0, 0, 0, 0, 0, 0, 0, 0, 0, 0, 0, 0, 0,
    0, 0, 8, 6, 6, 84, 79, 80, 0,
];

#[test]
fn what_is_wrong_with_a_body(rt: HostRuntime) -> Result<(), NoMemory> {
    let alloc = rt.alloc();
    let kernels = kernel_of(alloc, &ONES)?;
    let rows = [
        (WIDE_LAYER, "bad body at 102"),
        (TOP_AGAIN, "duplicate name at 130"),
    ];
    for (more, fault) in rows {
        let mut layout = OPENING.to_vec(alloc)?;
        layout.extend_from_slice(more)?;
        let line = format!(in alloc; "opc: layout: {fault}\n")?;
        check_calm(&rt, alloc, PROBE, (&layout, &kernels), (5, &line))?;
    }
    Ok(())
}

/// A file of so many bytes.
fn filler(alloc: Global, len: usize) -> Result<Vec<u8>, NoMemory> {
    Ok(vec![in alloc; b'#'; len]?)
}

#[test]
fn files_that_are_too_long(rt: HostRuntime) -> Result<(), Fail> {
    let alloc = rt.alloc();
    let long_layout = filler(alloc, 67_108_865)?;
    let long_rules = filler(alloc, 65_537)?;
    let long_moves = filler(alloc, 1_048_577)?;
    let layout = layout_of(alloc, &[SQUARE])?;
    let kernels = kernel_of(alloc, &ONES)?;
    let rules = rules_of(alloc, &[])?;
    let found = Found {
        layout: &layout,
        kernels: &kernels,
        rules: &rules,
        moves: b"",
    };
    let by_rules = Found {
        rules: &long_rules,
        ..found
    };
    let by_layout = Found {
        layout: &long_layout,
        ..found
    };
    let by_moves = Found {
        moves: &long_moves,
        ..found
    };
    check_refused(&rt, alloc, CORRECT, &by_rules, 7, "opc: rules: too long\n")?;
    check_refused(
        &rt,
        alloc,
        CORRECT,
        &by_layout,
        5,
        "opc: layout: too long\n",
    )?;
    check_refused(&rt, alloc, MOVES, &by_moves, 8, "opc: moves: too long\n")
}
