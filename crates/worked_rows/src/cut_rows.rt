//! A worked cut, and shapes that overlap.

use crate::drawing::Drawing;
use crate::files::{ONES, kernel_of, layout_of, mask_of};
use crate::outputs::{Found, MOVES, count_lines, outputs_of};
use crate::rules::rules_of;
use crate::runs::are_same;
use std::test::Fail;

#[test]
fn a_worked_cut(rt: HostRuntime) -> Result<(), Fail> {
    let alloc = rt.alloc();
    let layout = layout_of(alloc, &[[0, 0, 15, 10]])?;
    let kernels = kernel_of(alloc, &ONES)?;
    let rules = rules_of(
        alloc,
        &[("piece", "4"), ("corner_out", "3"), ("line_end", "0")],
    )?;
    let found = Found {
        layout: &layout,
        kernels: &kernels,
        rules: &rules,
        moves: b"1 2\n7 -1\n6 -1\n6 -2\n",
    };
    let (mask, table) = outputs_of(&rt, alloc, MOVES, &found)?;
    let rectangles = [[8, 0, 15, 1], [0, 1, 15, 3], [-2, 3, 15, 7], [0, 7, 15, 10]];
    assert!(rt; are_same(&mask, &mask_of(alloc, &rectangles)?));
    let begin =
        b"opc table 2\nfragments 14 kernels 1 reach 1 samples 2 threshold 37\nmove 1 2 done\nmove 7 -1 done\nmove 6 -1 done\nmove 6 -2 refused M4 fragment 0\n";
    assert!(rt; table.as_slice().starts_with(begin));
    assert!(rt; count_lines(&table, b"fragment ") == 14);
    let lines: [&[u8]; 4] = [
        b"fragment 0 left line 0 from 1 to 3 offset 0 inside 16 outside 4 error ",
        b"fragment 1 left line -2 from 3 to 7 offset 2 inside 81 outside 81 error ",
        b"fragment 6 down line 1 from 0 to 3 offset -1 inside 9 outside 0 error ",
        b"fragment 7 down line 1 from 3 to 8 offset -1 inside 9 outside 0 error ",
    ];
    for line in lines {
        assert!(rt; count_lines(&table, line) == 1);
    }
    Ok(())
}

#[test]
fn shapes_that_overlap_and_a_keyhole(rt: HostRuntime) -> Result<(), Fail> {
    let alloc = rt.alloc();
    let mut drawing = Drawing::new(alloc)?;
    drawing.boundary(&[(0, 0), (10, 0), (10, 4), (0, 4), (0, 0)])?;
    drawing.boundary(&[(5, 2), (12, 2), (12, 8), (5, 8), (5, 2)])?;
    drawing.boundary(&[
        (20, 0),
        (30, 0),
        (30, 10),
        (20, 10),
        (20, 5),
        (23, 5),
        (23, 7),
        (27, 7),
        (27, 3),
        (23, 3),
        (23, 5),
        (20, 5),
        (20, 0),
    ])?;
    let layout = drawing.end()?;
    let kernels = kernel_of(alloc, &ONES)?;
    let rules = rules_of(alloc, &[])?;
    let found = Found {
        layout: &layout,
        kernels: &kernels,
        rules: &rules,
        moves: b"",
    };
    let (mask, table) = outputs_of(&rt, alloc, MOVES, &found)?;
    let rectangles = [
        [0, 0, 10, 2],
        [20, 0, 30, 3],
        [0, 2, 12, 4],
        [20, 3, 23, 7],
        [27, 3, 30, 7],
        [5, 4, 12, 8],
        [20, 7, 30, 10],
    ];
    assert!(rt; are_same(&mask, &mask_of(alloc, &rectangles)?));
    assert!(rt; count_lines(&table, b"fragment ") == 16);
    assert!(rt; count_lines(&table, b"move ") == 0);
    Ok(())
}
