//! Counts at their limits, in two tables: cycles, great arrays and many structures by `probe`, and the largest targets by
//! `simulate`; and a layout cut at each byte.

use crate::drawing::{Drawing, UPRIGHT};
use crate::files::{ONES, OPENING, SQUARE, kernel_of, layout_of};
use crate::outputs::{Found, SIMULATE, check_refused, count_lines, outputs_of};
use crate::rules::rules_of;
use crate::runs::check_calm;
use opc_base::NoMemory;
use std::alloc::Global;
use std::test::Fail;

/// Structures of which the second and the third name one another. The first, `TOP`, names the second if it is asked for, and
/// has no other element.
fn cycle(alloc: Global, reached: bool) -> Result<Vec<u8>, NoMemory> {
    let mut drawing = Drawing::new(alloc)?;
    if reached {
        drawing.copy(b"AA", UPRIGHT, (0, 0))?;
    }
    drawing.structure(b"AA")?;
    drawing.copy(b"BB", UPRIGHT, (0, 0))?;
    drawing.structure(b"BB")?;
    drawing.copy(b"AA", UPRIGHT, (0, 0))?;
    drawing.end()
}

/// Five structures of 32,767 by 32,767 copies of the next at one place, down to a square.
fn nested_arrays(alloc: Global) -> Result<Vec<u8>, NoMemory> {
    let mut drawing = Drawing::new(alloc)?;
    for name in [b"AA", b"BB", b"CC", b"DD", b"EE"] {
        drawing.array(name, UPRIGHT, (32_767, 32_767), &[(0, 0), (0, 0), (0, 0)])?;
        drawing.structure(name)?;
    }
    drawing.square(0, 0, 10)?;
    drawing.end()
}

/// 1,024 by 512 copies at one place of a path of two points without width, which have 1,048,576 points, and a square if it is
/// asked for.
fn many_paths(alloc: Global, with_square: bool) -> Result<Vec<u8>, NoMemory> {
    let mut drawing = Drawing::new(alloc)?;
    drawing.array(b"CELL", UPRIGHT, (1_024, 512), &[(0, 0), (0, 0), (0, 0)])?;
    if with_square {
        drawing.square(0, 0, 10)?;
    }
    drawing.structure(b"CELL")?;
    drawing.bare_path(&[(0, 0), (10, 0)])?;
    drawing.end()
}

/// One structure more than there may be, each without elements; their names are a letter and seven digits.
fn many_structures(alloc: Global) -> Result<Vec<u8>, NoMemory> {
    let mut out = OPENING[..62].to_vec(alloc)?;
    for number in 0..65_536u32 {
        out.extend_from_slice(&[0, 28, 5, 2])?;
        out.extend_from_slice(&[0; 24])?;
        let name = format!(in alloc; "S{number:07}")?;
        out.extend_from_slice(&[0, 12, 6, 6])?;
        out.extend_from_slice(name.as_bytes())?;
        out.extend_from_slice(&[0, 4, 7, 0])?;
    }
    out.extend_from_slice(&[0, 4, 4, 0])?;
    Ok(out)
}

#[test]
fn counts_at_their_limits(rt: HostRuntime) -> Result<(), NoMemory> {
    let alloc = rt.alloc();
    let kernels = kernel_of(alloc, &ONES)?;
    let rows = [
        (cycle(alloc, true)?, 1, 5, "cycle through structure 1"),
        (cycle(alloc, false)?, 1, 0, "intensity 0"),
        (
            nested_arrays(alloc)?,
            1,
            5,
            "too many points 18446744073709551615",
        ),
        (nested_arrays(alloc)?, 2, 0, "intensity 0"),
        (many_paths(alloc, false)?, 1, 0, "intensity 0"),
        (many_paths(alloc, true)?, 1, 5, "too many points 1048581"),
        (
            many_structures(alloc)?,
            1,
            5,
            "too many structures at 2883602",
        ),
    ];
    for (layout, layer, status, said) in &rows {
        let line = format!(in alloc; "probe layout kernels TOP {layer} 0 5 5")?;
        let begin = if *status == 0 { "" } else { "opc: layout: " };
        let said = format!(in alloc; "{begin}{said}\n")?;
        check_calm(&rt, alloc, &line, (layout, &kernels), (*status, &said))?;
    }
    Ok(())
}

/// Where the records of a square's layout begin, and where it ends.
const RECORDS: [usize; 14] = [0, 6, 34, 42, 62, 90, 98, 102, 108, 114, 158, 162, 166, 170];

#[test]
fn a_square_cut_at_each_byte(rt: HostRuntime) -> Result<(), Fail> {
    let alloc = rt.alloc();
    let kernels = kernel_of(alloc, &ONES)?;
    let rules = rules_of(alloc, &[])?;
    let mut begin = 0;
    for len in 0..170usize {
        if RECORDS.contains(&len) {
            begin = len;
        }
        let mut layout = layout_of(alloc, &[SQUARE])?;
        layout.truncate(len);
        let found = Found {
            layout: &layout,
            kernels: &kernels,
            rules: &rules,
            moves: b"",
        };
        let line = format!(in alloc; "opc: layout: cut at {begin}\n")?;
        check_refused(&rt, alloc, SIMULATE, &found, 5, &line)?;
    }
    Ok(())
}

/// Columns and rows of squares of ten pixels, with ten pixels between them.
fn squares(alloc: Global, columns: i16, rows: i16) -> Result<Vec<u8>, NoMemory> {
    let right = 20 * i32::from(columns);
    let top = 20 * i32::from(rows);
    let mut drawing = Drawing::new(alloc)?;
    drawing.array(
        b"CELL",
        UPRIGHT,
        (columns, rows),
        &[(0, 0), (right, 0), (0, top)],
    )?;
    drawing.structure(b"CELL")?;
    drawing.square(0, 0, 10)?;
    drawing.end()
}

#[test]
fn the_largest_targets(rt: HostRuntime) -> Result<(), Fail> {
    let alloc = rt.alloc();
    let kernels = kernel_of(alloc, &ONES)?;
    let rules = rules_of(alloc, &[])?;
    let most = squares(alloc, 128, 64)?;
    let found = Found {
        layout: &most,
        kernels: &kernels,
        rules: &rules,
        moves: b"",
    };
    let (_, table) = outputs_of(&rt, alloc, SIMULATE, &found)?;
    let last = b"end worst 9 total 294912 settled no rectangles 8192";
    assert!(rt; count_lines(&table, last) == 1);
    let rows = [
        (squares(alloc, 128, 128)?, "too many fragments 65536"),
        (squares(alloc, 129, 128)?, "too many corners"),
    ];
    for (layout, fault) in &rows {
        let found = Found { layout, ..found };
        let line = format!(in alloc; "opc: layout: {fault}\n")?;
        check_refused(&rt, alloc, SIMULATE, &found, 5, &line)?;
    }
    Ok(())
}
