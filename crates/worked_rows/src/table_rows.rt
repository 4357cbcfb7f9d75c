//! Masks and tables of `simulate`, `correct` and `moves`, with numbers that were found by hand.

use crate::files::{ONES, SQUARE, Sides, kernel_of, layout_of, mask_of, masked_kernel_of};
use crate::outputs::{CORRECT, Found, MOVES, OLD, SIMULATE, check_answer};
use crate::rules::rules_of;
use std::alloc::Global;
use std::process::Abort;
use std::test::Fail;
use std::thread::Threads;

/// Two bars with a gap of three pixels.
pub const BARS: [Sides; 2] = [[0, 0, 6, 20], [9, 0, 15, 20]];

/// An L, as two rectangles.
const ELL: [Sides; 2] = [[0, 0, 20, 8], [0, 8, 8, 20]];

/// What a command is asked for, and what it has to store and say.
#[derive(Drop)]
struct Row<'a> {
    line: &'a str,
    shapes: &'a [Sides],
    rules: &'a [(&'a str, &'a str)],
    moves: &'a str,
    mask: Option<&'a [Sides]>,
    lines: &'a str,
    last: &'a str,
}

/// Runs a row under nine entries of 1.
fn check<R: Threads + Abort + Sync>(rt: &R, alloc: Global, row: &Row<'_>) -> Result<(), Fail> {
    let kernels = kernel_of(alloc, &ONES)?;
    check_under(rt, alloc, row, &kernels)
}

/// Runs a row under this kernel file.
fn check_under<R: Threads + Abort + Sync>(
    rt: &R,
    alloc: Global,
    row: &Row<'_>,
    kernels: &[u8],
) -> Result<(), Fail> {
    let layout = layout_of(alloc, row.shapes)?;
    let rules = rules_of(alloc, row.rules)?;
    let mask = match row.mask {
        Some(rectangles) => mask_of(alloc, rectangles)?,
        None => OLD.to_vec(alloc)?,
    };
    let found = Found {
        layout: &layout,
        kernels,
        rules: &rules,
        moves: row.moves.as_bytes(),
    };
    check_answer(rt, alloc, row.line, &found, &mask, row.lines, row.last)
}

#[test]
fn no_element(rt: HostRuntime) -> Result<(), Fail> {
    let row = Row {
        line: CORRECT,
        shapes: &[],
        rules: &[],
        moves: "",
        mask: Some(&[]),
        lines: "fragments 0 kernels 1 reach 1 samples 2 threshold 37\n",
        last: "end worst 0 total 0 settled yes rectangles 0\n",
    };
    check(&rt, rt.alloc(), &row)
}

#[test]
fn a_square_as_it_prints(rt: HostRuntime) -> Result<(), Fail> {
    let row = Row {
        line: SIMULATE,
        shapes: &[SQUARE],
        rules: &[],
        moves: "",
        mask: None,
        lines: "fragments 4 kernels 1 reach 1 samples 2 threshold 37\nfragment 0 left line 0 from 0 to 10 offset 0 inside 36 outside 9 error -9\nfragment 1 right line 10 from 0 to 10 offset 0 inside 36 outside 9 error -9\nfragment 2 down line 0 from 0 to 10 offset 0 inside 36 outside 9 error -9\nfragment 3 up line 10 from 0 to 10 offset 0 inside 36 outside 9 error -9\n",
        last: "end worst 9 total 36 settled no rectangles 1\n",
    };
    check(&rt, rt.alloc(), &row)
}

/// The square corrected.
const CORRECTED: Row<'static> = Row {
    line: CORRECT,
    shapes: &[SQUARE],
    rules: &[],
    moves: "",
    mask: Some(&[[-1, -1, 11, 11]]),
    lines: "fragments 4 kernels 1 reach 1 samples 2 threshold 37\nround 1 worst 9 total 36 moved 4\nfragment 0 left line -1 from -1 to 11 offset 1 inside 81 outside 36 error 7\nfragment 1 right line 11 from -1 to 11 offset 1 inside 81 outside 36 error 7\nfragment 2 down line -1 from -1 to 11 offset 1 inside 81 outside 36 error 7\nfragment 3 up line 11 from -1 to 11 offset 1 inside 81 outside 36 error 7\n",
    last: "end worst 7 total 28 settled yes rectangles 1\n",
};

#[test]
fn a_square_corrected(rt: HostRuntime) -> Result<(), Fail> {
    check(&rt, rt.alloc(), &CORRECTED)
}

// The second format with the transmissions 1 and 0 is the first.
#[test]
fn a_square_corrected_under_the_second_format(rt: HostRuntime) -> Result<(), Fail> {
    let alloc = rt.alloc();
    let kernels = masked_kernel_of(alloc, &[1, 0, 0, 0], &[1, 0])?;
    check_under(&rt, alloc, &CORRECTED, &kernels)
}

#[test]
fn settled_from_the_start(rt: HostRuntime) -> Result<(), Fail> {
    let row = Row {
        line: CORRECT,
        shapes: &[SQUARE],
        rules: &[("threshold", "9")],
        moves: "",
        mask: Some(&[SQUARE]),
        lines: "fragments 4 kernels 1 reach 1 samples 2 threshold 9\nfragment 0 left line 0 from 0 to 10 offset 0 inside 36 outside 9 error 8\nfragment 1 right line 10 from 0 to 10 offset 0 inside 36 outside 9 error 8\nfragment 2 down line 0 from 0 to 10 offset 0 inside 36 outside 9 error 8\nfragment 3 up line 10 from 0 to 10 offset 0 inside 36 outside 9 error 8\n",
        last: "end worst 8 total 32 settled yes rectangles 1\n",
    };
    check(&rt, rt.alloc(), &row)
}

#[test]
fn a_print_that_never_comes(rt: HostRuntime) -> Result<(), Fail> {
    let row = Row {
        line: CORRECT,
        shapes: &[SQUARE],
        rules: &[
            ("threshold", "82"),
            ("samples", "4"),
            ("max_step", "2"),
            ("max_out", "3"),
            ("rounds", "5"),
        ],
        moves: "",
        mask: Some(&[[-3, -3, 13, 13]]),
        lines: "fragments 4 kernels 1 reach 1 samples 4 threshold 82\nround 1 worst 64 total 256 moved 4\nround 2 worst 64 total 256 moved 4\nround 3 worst 64 total 256 moved 0\nround 4 worst 64 total 256 moved 0\nround 5 worst 64 total 256 moved 0\nfragment 0 left line -3 from -3 to 13 offset 3 inside 81 outside 81 error -64\nfragment 1 right line 13 from -3 to 13 offset 3 inside 81 outside 81 error -64\nfragment 2 down line -3 from -3 to 13 offset 3 inside 81 outside 81 error -64\nfragment 3 up line 13 from -3 to 13 offset 3 inside 81 outside 81 error -64\n",
        last: "end worst 64 total 256 settled no rectangles 1\n",
    };
    check(&rt, rt.alloc(), &row)
}

#[test]
fn two_bars_with_a_gap(rt: HostRuntime) -> Result<(), Fail> {
    let row = Row {
        line: CORRECT,
        shapes: &BARS,
        rules: &[("rounds", "2")],
        moves: "",
        mask: Some(&[[-1, -1, 7, 21], [9, -1, 16, 21]]),
        lines: "fragments 8 kernels 1 reach 1 samples 2 threshold 37\nround 1 worst 9 total 72 moved 7\nround 2 worst 9 total 58 moved 0\nfragment 0 left line -1 from -1 to 21 offset 1 inside 81 outside 36 error 7\nfragment 1 right line 7 from -1 to 21 offset 1 inside 81 outside 36 error 7\nfragment 2 left line 9 from -1 to 21 offset 0 inside 36 outside 9 error -9\nfragment 3 right line 16 from -1 to 21 offset 1 inside 81 outside 36 error 7\nfragment 4 down line -1 from -1 to 7 offset 1 inside 81 outside 36 error 7\nfragment 5 down line -1 from 9 to 16 offset 1 inside 81 outside 36 error 7\nfragment 6 up line 21 from -1 to 7 offset 1 inside 81 outside 36 error 7\nfragment 7 up line 21 from 9 to 16 offset 1 inside 81 outside 36 error 7\n",
        last: "end worst 9 total 58 settled no rectangles 2\n",
    };
    check(&rt, rt.alloc(), &row)
}

#[test]
fn three_moves_of_an_l(rt: HostRuntime) -> Result<(), Fail> {
    let row = Row {
        line: MOVES,
        shapes: &ELL,
        rules: &[],
        moves: "1 2\n4 3\n1 10\n",
        mask: Some(&[[0, 0, 20, 11], [0, 11, 10, 20]]),
        lines: "fragments 6 kernels 1 reach 1 samples 2 threshold 37\nmove 1 2 done\nmove 4 3 done\nmove 1 10 refused M4 fragment 4\nfragment 0 left line 0 from 0 to 20 offset 0 inside 36 outside 9 error -9\nfragment 1 right line 10 from 11 to 20 offset 2 inside 81 outside 81 error 23\nfragment 2 right line 20 from 0 to 11 offset 0 inside 36 outside 9 error -9\nfragment 3 down line 0 from 0 to 20 offset 0 inside 36 outside 9 error -9\nfragment 4 up line 11 from 10 to 20 offset 3 inside 81 outside 81 error 32\nfragment 5 up line 20 from 0 to 10 offset 0 inside 36 outside 9 error -9\n",
        last: "end worst 32 total 91 settled no rectangles 2\n",
    };
    check(&rt, rt.alloc(), &row)
}
