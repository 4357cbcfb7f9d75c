//! Masks corrected for several conditions at once: those of `window`, with numbers that were found by hand, and words
//! that it refuses. The second kernel file stands under the name of the moves.

use crate::files::{NINE, ONES, SQUARE, Sides, kernel_of, layout_of, mask_of};
use crate::hosts::none;
use crate::outputs::{CORRECT, Found, Left, WINDOW, check_left, check_refused, outputs_of};
use crate::rules::rules_of;
use crate::runs::are_same;
use crate::table_rows::BARS;
use std::alloc::Global;
use std::process::Abort;
use std::test::Fail;
use std::thread::Threads;

/// The square under one condition twice. The rule file's threshold isn't used.
const ALIKE_TABLE: &str = "opc window 1
fragments 4 conditions 2
condition 0 threshold 37 weight 1
condition 1 threshold 37 weight 1
round 1 worst 9 total 36 moved 4
fragment 0 offset 1 errors 7 7
fragment 1 offset 1 errors 7 7
fragment 2 offset 1 errors 7 7
fragment 3 offset 1 errors 7 7
end worst 7 total 28 settled yes rectangles 1
";

const ALIKE_END: &str = "end worst 7 total 28 settled yes rectangles 1
";

/// The square under two doses, of which the first weighs more.
const WEIGHED: &str = "window layout rules mask table kernels 37 3 moves 9 1";

const WEIGHED_TABLE: &str = "opc window 1
fragments 4 conditions 2
condition 0 threshold 37 weight 3
condition 1 threshold 9 weight 1
fragment 0 offset 0 errors -9 8
fragment 1 offset 0 errors -9 8
fragment 2 offset 0 errors -9 8
fragment 3 offset 0 errors -9 8
end worst 4 total 16 settled yes rectangles 1
";

const WEIGHED_END: &str = "end worst 4 total 16 settled yes rectangles 1
";

/// The square grown by a pixel.
const GROWN: Sides = [-1, -1, 11, 11];

/// Runs a line over the square, with equal kernel files, and compares what it stores and says.
fn check<R: Threads + Abort + Sync>(
    rt: &R,
    alloc: Global,
    line: &str,
    changes: &[(&str, &str)],
    mask: Sides,
    table: (&str, &str),
) -> Result<(), Fail> {
    let layout = layout_of(alloc, &[SQUARE])?;
    let kernels = kernel_of(alloc, &ONES)?;
    let rules = rules_of(alloc, changes)?;
    let mask = mask_of(alloc, &[mask])?;
    let found = Found {
        layout: &layout,
        kernels: &kernels,
        rules: &rules,
        moves: &kernels,
    };
    let left = Left {
        status: 0,
        mask: &mask,
        table: table.0.as_bytes(),
        said: table.1.as_bytes(),
    };
    check_left(rt, alloc, line, &found, none(alloc), &left)
}

#[test]
fn a_square_under_two_conditions(rt: HostRuntime) -> Result<(), Fail> {
    let alloc = rt.alloc();
    for workers in ["1", "2", "7"] {
        let changes = [("threshold", "9"), ("workers", workers)];
        let alike = (ALIKE_TABLE, ALIKE_END);
        check(&rt, alloc, WINDOW, &changes, GROWN, alike)?;
        let weighed = (WEIGHED_TABLE, WEIGHED_END);
        check(&rt, alloc, WEIGHED, &changes, SQUARE, weighed)?;
    }
    Ok(())
}

/// Two conditions with these kernels and this threshold give the mask that `correct` gives with that threshold.
fn check_alike<R: Threads + Abort + Sync>(
    rt: &R,
    alloc: Global,
    shapes: &[Sides],
    kernels: &[u8; 9],
    threshold: &str,
) -> Result<(), Fail> {
    let layout = layout_of(alloc, shapes)?;
    let kernels = kernel_of(alloc, kernels)?;
    let rules = rules_of(alloc, &[("threshold", threshold), ("rounds", "2")])?;
    let found = Found {
        layout: &layout,
        kernels: &kernels,
        rules: &rules,
        moves: &kernels,
    };
    let (wanted, _) = outputs_of(rt, alloc, CORRECT, &found)?;
    let conditions = format!(in alloc; "kernels {threshold} 1 moves {threshold} 16")?;
    let line = format!(in alloc; "window layout rules mask table {conditions}")?;
    let (mask, _) = outputs_of(rt, alloc, &line, &found)?;
    assert!(rt; are_same(&mask, &wanted), "{line}");
    Ok(())
}

#[test]
fn conditions_alike_give_the_mask_of_correct(rt: HostRuntime) -> Result<(), Fail> {
    let alloc = rt.alloc();
    check_alike(&rt, alloc, &[SQUARE], &ONES, "37")?;
    check_alike(&rt, alloc, &[SQUARE], &ONES, "82")?;
    check_alike(&rt, alloc, &BARS, &ONES, "37")?;
    check_alike(&rt, alloc, &BARS, &NINE, "900")
}

#[test]
fn conditions_that_are_refused(rt: HostRuntime) -> Result<(), Fail> {
    let alloc = rt.alloc();
    let layout = layout_of(alloc, &[SQUARE])?;
    let kernels = kernel_of(alloc, &ONES)?;
    let rules = rules_of(alloc, &[])?;
    let found = Found {
        layout: &layout,
        kernels: &kernels,
        rules: &rules,
        moves: b"no kernels",
    };
    let words = (2, "opc: words\n");
    let magic = (6, "opc: kernels: bad magic\n");
    let rows = [
        ("mask table kernels 37 1", words),
        (
            "mask table kernels 37 1 kernels 37 1 kernels 37 1 kernels 37 1 kernels 37 1",
            words,
        ),
        ("mask table kernels 37 1 kernels 37", words),
        ("mask table kernels 37 1 kernels 37 17", words),
        ("mask table kernels 37 1 kernels 37 0", words),
        ("mask table kernels 0 1 kernels 37 1", words),
        ("mask table kernels 1000000000000 1 kernels 37 1", words),
        ("mask table kernels 37 1 mask 37 1", words),
        ("mask table table 37 1 kernels 37 1", words),
        ("rules table kernels 37 1 kernels 37 1", words),
        ("mask mask kernels 37 1 kernels 37 1", words),
        ("mask table kernels 37 1 kernels 37 1 moves 37 1", magic),
    ];
    for (names, (status, said)) in rows {
        let line = format!(in alloc; "window layout rules {names}")?;
        check_refused(&rt, alloc, &line, &found, status, said)?;
    }
    Ok(())
}
