//! Targets with scatter bars: masks and tables of `assist`, with numbers that were found by hand, and its refusals.

use crate::files::{ONES, SQUARE, Sides, kernel_of, layout_of, mask_of};
use crate::hosts::none;
use crate::outputs::{ASSIST, Found, Left, check_left, check_refused};
use crate::rules::rules_of;
use std::alloc::Global;
use std::process::Abort;
use std::test::Fail;
use std::thread::Threads;

/// The square grown by a pixel, among its four bars.
const GROWN: [Sides; 5] = [
    [1, -6, 9, -4],
    [-1, -1, 11, 11],
    [-6, 1, -4, 9],
    [14, 1, 16, 9],
    [1, 14, 9, 16],
];

/// The square among its four bars.
const STILL: [Sides; 5] = [
    [1, -6, 9, -4],
    [0, 0, 10, 10],
    [-6, 1, -4, 9],
    [14, 1, 16, 9],
    [1, 14, 9, 16],
];

const DARK: &str = "opc assist 1
fragments 20 kernels 1 reach 1 samples 2 threshold 37
round 1 worst 9 total 36 moved 4
bar 0 -6 1 -4 9 printed no
bar 1 14 1 16 9 printed no
bar 2 1 -6 9 -4 printed no
bar 3 1 14 9 16 printed no
end worst 7 total 28 settled yes rectangles 5
";

const DARK_END: &str = "end worst 7 total 28 settled yes rectangles 5
";

const BRIGHT: &str = "opc assist 1
fragments 20 kernels 1 reach 1 samples 2 threshold 36
bar 0 -6 1 -4 9 printed yes
bar 1 14 1 16 9 printed yes
bar 2 1 -6 9 -4 printed yes
bar 3 1 14 9 16 printed yes
end worst 8 total 32 settled yes rectangles 5
";

const BRIGHT_END: &str = "end worst 8 total 32 settled yes rectangles 5
";

const ALONE: &str = "opc assist 1
fragments 4 kernels 1 reach 1 samples 2 threshold 37
round 1 worst 9 total 36 moved 4
end worst 7 total 28 settled yes rectangles 1
";

const ALONE_END: &str = "end worst 7 total 28 settled yes rectangles 1
";

/// Runs a line over the square, and compares what it stores and says.
fn check<R: Threads + Abort + Sync>(
    rt: &R,
    alloc: Global,
    line: &str,
    changes: &[(&str, &str)],
    mask: &[Sides],
    table: (&str, &str),
) -> Result<(), Fail> {
    let layout = layout_of(alloc, &[SQUARE])?;
    let kernels = kernel_of(alloc, &ONES)?;
    let rules = rules_of(alloc, changes)?;
    let mask = mask_of(alloc, mask)?;
    let found = Found {
        layout: &layout,
        kernels: &kernels,
        rules: &rules,
        moves: b"",
    };
    let left = Left {
        status: 0,
        mask: &mask,
        table: table.0.as_bytes(),
        said: table.1.as_bytes(),
    };
    check_left(rt, alloc, line, &found, none(alloc), &left)
}

#[test]
fn bars_of_a_square(rt: HostRuntime) -> Result<(), Fail> {
    let alloc = rt.alloc();
    check(&rt, alloc, ASSIST, &[], &GROWN, (DARK, DARK_END))?;
    // workers and tiles change nothing
    let shared = [("workers", "7"), ("tile", "64")];
    check(&rt, alloc, ASSIST, &shared, &GROWN, (DARK, DARK_END))?;
    let bright = [("threshold", "36")];
    check(&rt, alloc, ASSIST, &bright, &STILL, (BRIGHT, BRIGHT_END))?;
    // no edge is long enough
    let line = "assist layout kernels rules mask table 4 2 1 11";
    check(
        &rt,
        alloc,
        line,
        &[],
        &[[-1, -1, 11, 11]],
        (ALONE, ALONE_END),
    )
}

#[test]
fn numbers_of_bars_that_are_refused(rt: HostRuntime) -> Result<(), Fail> {
    let alloc = rt.alloc();
    let layout = layout_of(alloc, &[SQUARE])?;
    let kernels = kernel_of(alloc, &ONES)?;
    let rules = rules_of(alloc, &[])?;
    let (layout, kernels, rules) = (layout.as_slice(), kernels.as_slice(), rules.as_slice());
    let none = b"".as_slice();
    let gap = (7, "opc: rules: bars gap\n");
    let width = (7, "opc: rules: bars width\n");
    let min = (7, "opc: rules: bars min\n");
    let toml = (7, "opc: rules: unknown key\n");
    let words = (2, "opc: words\n");
    let magic = (6, "opc: kernels: bad magic\n");
    let rows = [
        ("1 2 1 10", layout, kernels, rules, gap),
        ("1 1 5 10", layout, kernels, rules, gap),
        ("2 1 1 10", layout, kernels, rules, width),
        ("2 1 5 10", layout, kernels, rules, width),
        ("2 2 5 11", layout, kernels, rules, min),
        // right after the rule file, and before the kernels
        ("1 2 1 10", none, none, rules, gap),
        ("1 2 1 10", none, none, b"a = 1".as_slice(), toml),
        ("2 2 4 10", layout, b"no kernels".as_slice(), rules, magic),
        ("0 2 1 10", layout, kernels, rules, words),
        ("1025 2 1 10", layout, kernels, rules, words),
        ("4 1025 1 10", layout, kernels, rules, words),
        ("4 2 -1 10", layout, kernels, rules, words),
        ("4 2 1025 10", layout, kernels, rules, words),
        ("4 2 1 0", layout, kernels, rules, words),
        ("4 2 1 4097", layout, kernels, rules, words),
        ("4 2 1", layout, kernels, rules, words),
        ("4 2 1 10 1", layout, kernels, rules, words),
    ];
    for (numbers, layout, kernels, rules, (status, said)) in rows {
        let line = format!(in alloc; "assist layout kernels rules mask table {numbers}")?;
        let found = Found {
            layout,
            kernels,
            rules,
            moves: none,
        };
        check_refused(&rt, alloc, &line, &found, status, said)?;
    }
    Ok(())
}
