//! Files and words that `simulate`, `correct` and `moves` refuse, and lines of moves files.

use crate::files::{ONES, SQUARE, Sides, kernel_of, layout_of, mask_of};
use crate::outputs::{CORRECT, Found, MOVES, SIMULATE, check_refused, count_lines, outputs_of};
use crate::rules::rules_of;
use crate::runs::are_same;
use crate::table_rows::BARS;
use std::alloc::Global;
use std::process::Abort;
use std::test::Fail;
use std::thread::Threads;

/// What is wrong with rectangles, with rules or with a moves file, under nine entries of 1.
#[derive(Drop)]
struct Row<'a> {
    line: &'a str,
    shapes: &'a [Sides],
    rules: &'a [(&'a str, &'a str)],
    moves: &'a str,
    wanted: (u8, &'a str),
}

/// Runs each row: it ends with its status and line, and stores nothing.
fn check_rows<R: Threads + Abort + Sync>(
    rt: &R,
    alloc: Global,
    rows: &[Row<'_>],
) -> Result<(), Fail> {
    let kernels = kernel_of(alloc, &ONES)?;
    for row in rows {
        let layout = layout_of(alloc, row.shapes)?;
        let rules = rules_of(alloc, row.rules)?;
        let found = Found {
            layout: &layout,
            kernels: &kernels,
            rules: &rules,
            moves: row.moves.as_bytes(),
        };
        let (status, said) = row.wanted;
        check_refused(rt, alloc, row.line, &found, status, said)?;
    }
    Ok(())
}

#[test]
fn what_is_wrong_with_moves(rt: HostRuntime) -> Result<(), Fail> {
    let row = |moves, wanted| Row {
        line: MOVES,
        shapes: &BARS,
        rules: &[],
        moves,
        wanted,
    };
    let rows = [
        row("8 1\n", (8, "opc: moves: no fragment at line 1\n")),
        row("7  1\n", (8, "opc: moves: bad line 1\n")),
        row("1 1\n\n", (8, "opc: moves: bad line 2\n")),
        row("9 1\n1  1\n", (8, "opc: moves: bad line 2\n")),
    ];
    check_rows(&rt, rt.alloc(), &rows)
}

#[test]
fn targets_that_break_a_rule(rt: HostRuntime) -> Result<(), Fail> {
    let row = |line, shapes, wanted| Row {
        line,
        shapes,
        rules: &[],
        moves: "x",
        wanted,
    };
    let corner = [SQUARE, [10, 10, 20, 20]];
    let thin = [[0, 0, 1, 20]];
    let near = [[0, 0, 6, 20], [7, 0, 13, 20]];
    let rows = [
        row(CORRECT, corner.as_slice(), (9, "opc: target: M3 at 9 9\n")),
        row(SIMULATE, thin.as_slice(), (9, "opc: target: M1 at 0 0\n")),
        row(MOVES, near.as_slice(), (9, "opc: target: M2 at 6 0\n")),
    ];
    check_rows(&rt, rt.alloc(), &rows)
}

#[test]
fn what_is_wrong_with_rules(rt: HostRuntime) -> Result<(), Fail> {
    let row = |rules, wanted| Row {
        line: CORRECT,
        shapes: &[SQUARE],
        rules,
        moves: "",
        wanted,
    };
    let rows = [
        row(
            [("grid", "0")].as_slice(),
            (7, "opc: rules: out of range grid\n"),
        ),
        row(
            [("grid", "\"1\"")].as_slice(),
            (7, "opc: rules: wrong type grid\n"),
        ),
        row(
            [("grid", "1\ncolour = 1")].as_slice(),
            (7, "opc: rules: unknown key\n"),
        ),
        row([("grid", "=")].as_slice(), (7, "opc: rules: not toml\n")),
        row(
            [("top", "\"NONE\"")].as_slice(),
            (5, "opc: layout: no top structure\n"),
        ),
        row(
            [("grid", "3")].as_slice(),
            (5, "opc: layout: off grid at 98\n"),
        ),
    ];
    check_rows(&rt, rt.alloc(), &rows)
}

#[test]
fn rules_without_a_key(rt: HostRuntime) -> Result<(), Fail> {
    let alloc = rt.alloc();
    let layout = layout_of(alloc, &[SQUARE])?;
    let kernels = kernel_of(alloc, &ONES)?;
    let found = Found {
        layout: &layout,
        kernels: &kernels,
        rules: b"",
        moves: b"",
    };
    let line = "opc: rules: missing top\n";
    check_refused(&rt, alloc, CORRECT, &found, 7, line)
}

#[test]
fn names_of_outputs_that_are_taken(rt: HostRuntime) -> Result<(), Fail> {
    let row = |line| Row {
        line,
        shapes: &[SQUARE],
        rules: &[],
        moves: "",
        wanted: (2, "opc: words\n"),
    };
    let rows = [
        row("simulate layout kernels rules rules"),
        row("simulate layout kernels rules layout"),
        row("correct layout kernels rules table table"),
        row("correct layout kernels rules kernels table"),
        row("correct layout kernels rules mask layout"),
        row("moves layout kernels rules moves moves table"),
        row("moves layout kernels rules moves mask moves"),
        row("moves layout kernels rules moves mask mask"),
    ];
    check_rows(&rt, rt.alloc(), &rows)
}

/// Moves of two bars that are done or refused: each move has this line, and these rectangles are left.
fn check_moves<R: Threads + Abort + Sync>(
    rt: &R,
    alloc: Global,
    moves: &str,
    lines: &[&str],
    rectangles: &[Sides],
) -> Result<(), Fail> {
    let layout = layout_of(alloc, &BARS)?;
    let kernels = kernel_of(alloc, &ONES)?;
    let rules = rules_of(alloc, &[])?;
    let found = Found {
        layout: &layout,
        kernels: &kernels,
        rules: &rules,
        moves: moves.as_bytes(),
    };
    let (mask, table) = outputs_of(rt, alloc, MOVES, &found)?;
    assert!(rt; are_same(&mask, &mask_of(alloc, rectangles)?));
    let mut wanted = b"opc table 2\nfragments 8 kernels 1 reach 1 samples 2 threshold 37\n".to_vec(
        alloc,
    )?;
    for line in lines {
        wanted.extend_from_slice(line.as_bytes())?;
        wanted.push(b'\n')?;
    }
    assert!(rt; table.as_slice().starts_with(&wanted));
    assert!(rt; count_lines(&table, b"move ") == lines.len());
    assert!(rt; count_lines(&table, b"fragment ") == 8);
    Ok(())
}

#[test]
fn moves_of_a_bar_toward_the_other(rt: HostRuntime) -> Result<(), Fail> {
    let lines = [
        "move 1 2 refused M2 at 8 0",
        "move 1 2 refused M2 at 8 0",
        "move 1 3 refused M0 at 9 0",
        "move 1 5 refused M0 at 9 0",
        "move 1 17 refused M5 fragment 1",
        "move 1 -2 done",
    ];
    check_moves(
        &rt,
        rt.alloc(),
        "1 2\n1 2\n1 3\n1 5\n1 17\n1 -2\n",
        &lines,
        &[[0, 0, 4, 20], [9, 0, 15, 20]],
    )
}

#[test]
fn a_moves_file_without_its_last_line_end(rt: HostRuntime) -> Result<(), Fail> {
    check_moves(
        &rt,
        rt.alloc(),
        "7 1",
        &["move 7 1 done"],
        &[[0, 0, 6, 20], [9, 0, 15, 21]],
    )
}
