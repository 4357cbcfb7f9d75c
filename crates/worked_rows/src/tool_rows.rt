//! A layout as a layout tool writes it, corrected twice.

use crate::outputs::{CORRECT, Found, count_lines, outputs_of};
use crate::rules::rules_of;
use crate::runs::are_same;
use crate::tool_layout::{tool_kernels, tool_layout};
use std::test::Fail;

#[test]
fn a_layout_as_a_tool_writes_it(rt: HostRuntime) -> Result<(), Fail> {
    let alloc = rt.alloc();
    let changes = [
        ("layer", "10"),
        ("grid", "5"),
        ("threshold", "55000000000"),
        ("samples", "8"),
        ("piece", "8"),
        ("corner_out", "8"),
        ("corner_in", "8"),
        ("line_end", "13"),
        ("rounds", "8"),
        ("width", "8"),
        ("space", "8"),
        ("tile", "64"),
        ("workers", "4"),
    ];
    let layout = tool_layout(alloc)?;
    let kernels = tool_kernels(alloc)?;
    let rules = rules_of(alloc, &changes)?;
    let found = Found {
        layout: &layout,
        kernels: &kernels,
        rules: &rules,
        moves: b"",
    };
    let (mask, table) = outputs_of(&rt, alloc, CORRECT, &found)?;
    let head = b"opc table 2\nfragments 733 kernels 8 reach 40 samples 8 threshold 55000000000\n";
    assert!(rt; table.as_slice().starts_with(head));
    assert!(rt; count_lines(&table, b"round ") <= 8);
    assert!(rt; count_lines(&table, b"fragment ") == 733);
    assert!(rt; count_lines(&table, b"end ") == 1);
    let again = outputs_of(&rt, alloc, CORRECT, &found)?;
    assert!(rt; are_same(&again.0, &mask));
    assert!(rt; are_same(&again.1, &table));
    Ok(())
}
