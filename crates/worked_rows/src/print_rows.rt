//! Rows of `check`: printed images as layouts, lists of flaws, and what is refused.

use crate::files::{ONES, SQUARE, Sides, kernel_of, layout_of, mask_of};
use crate::hosts::none;
use crate::outputs::{CHECK, Found, Left, check_left, check_refused};
use crate::rules::rules_of;
use opc_base::NoMemory;
use std::alloc::Global;
use std::process::Abort;
use std::test::Fail;
use std::thread::Threads;

/// What is printed of some shapes under some rules, and the list.
#[derive(Drop)]
struct Row<'a> {
    shapes: &'a [Sides],
    kernels: &'a [u8],
    rules: &'a [(&'a str, &'a str)],
    printed: &'a [Sides],
    flaws: &'a str,
    last: &'a str,
}

/// A run of the row stores its rectangles and its list, and says the list's last line.
fn check_row<R: Threads + Abort + Sync>(rt: &R, alloc: Global, row: &Row<'_>) -> Result<(), Fail> {
    let layout = layout_of(alloc, row.shapes)?;
    let rules = rules_of(alloc, row.rules)?;
    let found = Found {
        layout: &layout,
        kernels: row.kernels,
        rules: &rules,
        moves: b"",
    };
    let flaws = row.flaws;
    let last = row.last;
    let list = format!(in alloc; "opc print 1\n{flaws}{last}")?;
    let printed = mask_of(alloc, row.printed)?;
    let left = Left {
        status: 0,
        mask: &printed,
        table: list.as_bytes(),
        said: last.as_bytes(),
    };
    check_left(rt, alloc, CHECK, &found, none(alloc), &left)
}

#[test]
fn a_square_and_no_shape(rt: HostRuntime) -> Result<(), Fail> {
    let alloc = rt.alloc();
    let kernels = kernel_of(alloc, &ONES)?;
    let row = |shapes, last| Row {
        shapes,
        kernels: &kernels,
        rules: &[],
        printed: shapes,
        flaws: "",
        last,
    };
    check_row(
        &rt,
        alloc,
        &row(&[SQUARE], "end rectangles 1 pinches 0 bridges 0\n"),
    )?;
    check_row(
        &rt,
        alloc,
        &row(&[], "end rectangles 0 pinches 0 bridges 0\n"),
    )
}

/// What is printed of two bars with a gap of two pixels, where a pixel prints that has three covered ones round it.
const BRIDGED: [Sides; 9] = [
    [1, -1, 5, 0],
    [9, -1, 13, 0],
    [0, 0, 6, 1],
    [8, 0, 14, 1],
    [-1, 1, 15, 19],
    [0, 19, 6, 20],
    [8, 19, 14, 20],
    [1, 20, 5, 21],
    [9, 20, 13, 21],
];

/// The eighteen rows of the bridge.
fn bridges(alloc: Global) -> Result<String, Fail> {
    let mut lines = String::new(alloc);
    for row in 1..19 {
        let line = format!(in alloc; "bridge row {row} from -1 to 15\n")?;
        lines.push_str(line.as_str())?;
    }
    Ok(lines)
}

#[test]
fn two_bars_are_bridged_for_all_workers_and_tiles(rt: HostRuntime) -> Result<(), Fail> {
    let alloc = rt.alloc();
    let kernels = kernel_of(alloc, &ONES)?;
    let lines = bridges(alloc)?;
    for (workers, tile) in [
        ("1", "16"),
        ("2", "64"),
        ("7", "4096"),
        ("7", "16"),
        ("1", "4096"),
    ] {
        let row = Row {
            shapes: &[[0, 0, 6, 20], [8, 0, 14, 20]],
            kernels: &kernels,
            rules: &[
                ("threshold", "9"),
                ("rounds", "0"),
                ("workers", workers),
                ("tile", tile),
            ],
            printed: &BRIDGED,
            flaws: lines.as_str(),
            last: "end rectangles 9 pinches 0 bridges 18\n",
        };
        check_row(&rt, alloc, &row)?;
    }
    Ok(())
}

/// A kernel of reach 1 whose one entry is in its middle, for a mask that is open where it isn't covered.
fn dark_kernel(alloc: Global) -> Result<Vec<u8>, NoMemory> {
    let mut out = b"OPK2\x00\x01\x00\x01\x00\x00\x00\x00\x00\x01\x00\x00\x00\x01".to_vec(alloc)?;
    for place in 0..9u8 {
        out.extend_from_slice(&[0, u8::from(place == 4), 0, 0])?;
    }
    Ok(out)
}

#[test]
fn a_window_is_cut_where_no_mask_can_reach(rt: HostRuntime) -> Result<(), Fail> {
    let kernels = dark_kernel(rt.alloc())?;
    let row = Row {
        shapes: &[[1_047_990, 1_047_990, 1_048_000, 1_048_000]],
        kernels: &kernels,
        rules: &[("threshold", "1"), ("rounds", "0"), ("max_out", "128")],
        printed: &[
            [1_047_861, 1_047_861, 1_048_128, 1_047_990],
            [1_047_861, 1_047_990, 1_047_990, 1_048_000],
            [1_048_000, 1_047_990, 1_048_128, 1_048_000],
            [1_047_861, 1_048_000, 1_048_128, 1_048_128],
        ],
        flaws: "",
        last: "end rectangles 4 pinches 0 bridges 0\n",
    };
    check_row(&rt, rt.alloc(), &row)
}

#[test]
fn a_window_of_the_greatest_size_and_one_row_more(rt: HostRuntime) -> Result<(), Fail> {
    let alloc = rt.alloc();
    let kernels = kernel_of(alloc, &ONES)?;
    let shapes = [SQUARE, [2004, 2004, 2014, 2014]];
    let row = Row {
        shapes: &shapes,
        kernels: &kernels,
        rules: &[("rounds", "1")],
        printed: &shapes,
        flaws: "",
        last: "end rectangles 2 pinches 0 bridges 0\n",
    };
    check_row(&rt, alloc, &row)?;
    let rows: [(&[Sides], &str); 2] = [
        (
            &[SQUARE, [2004, 2005, 2014, 2015]],
            "opc: layout: too wide 4196352\n",
        ),
        (
            &[SQUARE, [4000, 4000, 4010, 4010]],
            "opc: layout: too wide 16353936\n",
        ),
    ];
    let rules = rules_of(alloc, &[])?;
    for (shapes, said) in rows {
        let layout = layout_of(alloc, shapes)?;
        let found = Found {
            layout: &layout,
            kernels: &kernels,
            rules: &rules,
            moves: b"",
        };
        check_refused(&rt, alloc, CHECK, &found, 5, said)?;
    }
    Ok(())
}

#[test]
fn each_file_is_refused(rt: HostRuntime) -> Result<(), Fail> {
    let alloc = rt.alloc();
    let layout = layout_of(alloc, &[SQUARE])?;
    let thin = layout_of(alloc, &[[0, 0, 1, 20]])?;
    let kernels = kernel_of(alloc, &ONES)?;
    let rules = rules_of(alloc, &[])?;
    let (layout, thin) = (layout.as_slice(), thin.as_slice());
    let (kernels, rules) = (kernels.as_slice(), rules.as_slice());
    let rows: [(&[u8], &[u8], &[u8], u8, &str); 5] = [
        (b"", b"", b"", 7, "opc: rules: missing top\n"),
        (b"", b"", rules, 6, "opc: kernels: bad magic\n"),
        (b"", kernels, rules, 5, "opc: layout: cut at 0\n"),
        (thin, kernels, rules, 9, "opc: target: M1 at 0 0\n"),
        (
            layout,
            b"OPK1\x00\x00\x00\x00",
            rules,
            6,
            "opc: kernels: bad count\n",
        ),
    ];
    for (layout, kernels, rules, status, said) in rows {
        let found = Found {
            layout,
            kernels,
            rules,
            moves: b"",
        };
        check_refused(&rt, alloc, CHECK, &found, status, said)?;
    }
    Ok(())
}
