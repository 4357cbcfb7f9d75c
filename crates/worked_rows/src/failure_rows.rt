//! A correction in which each call of the host fails in turn.

use crate::files::{ONES, SQUARE, kernel_of, layout_of, mask_of};
use crate::hosts::{no_files, none, one, two};
use crate::outputs::{BEFORE, CORRECT, Found, Left, OLD, check_left, has_bytes};
use crate::rules::rules_of;
use crate::runs::{are_same, words_of_line};
use opc_base::{CalmHost, Fail, Host, NoWatch};
use opc_cli::opc_run;
use std::test;

/// The table of the square corrected.
const TABLE: &[u8] =
    b"opc table 2\nfragments 4 kernels 1 reach 1 samples 2 threshold 37\nround 1 worst 9 total 36 moved 4\nfragment 0 left line -1 from -1 to 11 offset 1 inside 81 outside 36 error 7\nfragment 1 right line 11 from -1 to 11 offset 1 inside 81 outside 36 error 7\nfragment 2 down line -1 from -1 to 11 offset 1 inside 81 outside 36 error 7\nfragment 3 up line 11 from -1 to 11 offset 1 inside 81 outside 36 error 7\nend worst 7 total 28 settled yes rectangles 1\n";

const LAST: &[u8] = b"end worst 7 total 28 settled yes rectangles 1\n";

/// Which call of the run fails and how many bytes it keeps, and what is left.
type Row<'a> = (u32, u32, Left<'a>);

#[test]
fn each_call_of_a_correction_fails(rt: HostRuntime) -> Result<(), test::Fail> {
    let alloc = rt.alloc();
    let layout = layout_of(alloc, &[SQUARE])?;
    let kernels = kernel_of(alloc, &ONES)?;
    let rules = rules_of(alloc, &[])?;
    let found = Found {
        layout: &layout,
        kernels: &kernels,
        rules: &rules,
        moves: b"",
    };
    let mask = mask_of(alloc, &[[-1, -1, 11, 11]])?;
    let mask = mask.as_slice();
    let left = |status, mask, table, said| Left {
        status,
        mask,
        table,
        said,
    };
    let front = b"\x00\x06\x00\x02\x02\x58\x00\x1c\x01\x02".as_slice();
    let rows: [Row<'_>; 8] = [
        (1, 0, left(3, OLD, OLD, b"opc: cannot read layout\n")),
        (2, 0, left(3, OLD, OLD, b"opc: cannot read kernels\n")),
        (3, 0, left(3, OLD, OLD, b"opc: cannot read rules\n")),
        (4, 10, left(4, front, OLD, b"opc: cannot write mask\n")),
        (5, 0, left(4, mask, b"", b"opc: cannot write table\n")),
        (
            5,
            10,
            left(4, mask, b"opc table ", b"opc: cannot write table\n"),
        ),
        (6, 4, left(4, mask, TABLE, b"end ")),
        (7, 0, left(0, mask, TABLE, LAST)),
    ];
    for (call, keep, left) in rows {
        let fails = one(alloc, BEFORE.saturating_add(call), keep)?;
        check_left(&rt, alloc, CORRECT, &found, fails, &left)?;
    }
    let unread = left(3, OLD, OLD, b"opc: ");
    let first = Fail {
        call: BEFORE + 1,
        keep: 0,
    };
    let second = Fail {
        call: BEFORE + 2,
        keep: 5,
    };
    check_left(
        &rt,
        alloc,
        CORRECT,
        &found,
        two(alloc, first, second)?,
        &unread,
    )?;
    let unwritten = left(4, mask, b"opc", b"opc: cannot");
    let first = Fail {
        call: BEFORE + 5,
        keep: 3,
    };
    let second = Fail {
        call: BEFORE + 6,
        keep: 11,
    };
    check_left(
        &rt,
        alloc,
        CORRECT,
        &found,
        two(alloc, first, second)?,
        &unwritten,
    )?;
    check_left(
        &rt,
        alloc,
        CORRECT,
        &found,
        none(alloc),
        &left(0, mask, TABLE, LAST),
    )
}

#[test]
fn a_calm_host_without_the_kernels(rt: HostRuntime) -> Result<(), test::Fail> {
    let alloc = rt.alloc();
    let mut host = CalmHost::new(alloc, no_files(alloc))?;
    host.store(alloc, "layout", &layout_of(alloc, &[SQUARE])?)?;
    host.store(alloc, "rules", &rules_of(alloc, &[])?)?;
    host.store(alloc, "mask", OLD)?;
    host.store(alloc, "table", OLD)?;
    let words = words_of_line(alloc, CORRECT)?;
    let status = opc_run(&rt, alloc, &words, &mut host, &NoWatch);
    assert!(rt; status == 3);
    assert!(rt; are_same(host.said(), b"opc: cannot read kernels\n"));
    assert!(rt; has_bytes(host.file("mask"), OLD));
    assert!(rt; has_bytes(host.file("table"), OLD));
    Ok(())
}
