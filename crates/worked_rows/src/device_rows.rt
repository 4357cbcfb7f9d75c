//! Commands of two outputs in which each call of the host fails in turn, whatever it keeps of what it was given.

use crate::files::{ONES, SQUARE, kernel_of, layout_of};
use crate::hosts::one;
use crate::outputs::{
    ASSIST, BEFORE, CHECK, CORRECT, Found, Left, MOVES, OLD, POLYGONS, WINDOW, Whole, check_left,
    whole_of,
};
use crate::rules::rules_of;
use std::alloc::Global;
use std::process::Abort;
use std::test::Fail;
use std::thread::Threads;

/// Each command, and the files that it loads in their order. A kernel file that is named twice is read twice.
const COMMANDS: [(&str, &[&str]); 6] = [
    (CORRECT, &["layout", "kernels", "rules"]),
    (MOVES, &["layout", "kernels", "rules", "moves"]),
    (CHECK, &["layout", "kernels", "rules"]),
    (ASSIST, &["layout", "kernels", "rules"]),
    (POLYGONS, &["layout", "kernels", "rules"]),
    (WINDOW, &["layout", "rules", "kernels", "kernels"]),
];

/// A call after the loads, in the order of the calls.
#[derive(Clone, Copy)]
enum Device {
    First,
    Second,
    Line,
}

/// How many bytes a call is given.
fn given(whole: &Whole, device: Device) -> usize {
    match device {
        Device::First => whole.mask.len(),
        Device::Second => whole.table.len(),
        Device::Line => whole.said.len(),
    }
}

/// The first bytes of a file.
fn front(bytes: &[u8], keep: usize) -> &[u8] {
    bytes.get(..keep).unwrap_or(bytes)
}

/// What a run leaves where a call after the loads fails and keeps so many bytes: what came before is whole, what comes
/// after is as it was, and the line of the fault is said.
fn left_by<'a>(whole: &'a Whole, device: Device, keep: usize) -> Left<'a> {
    let (mask, table) = (whole.mask.as_slice(), whole.table.as_slice());
    let (mask, table, said) = match device {
        Device::First => (
            front(mask, keep),
            OLD,
            b"opc: cannot write mask\n".as_slice(),
        ),
        Device::Second => (
            mask,
            front(table, keep),
            b"opc: cannot write table\n".as_slice(),
        ),
        Device::Line => (mask, table, front(&whole.said, keep)),
    };
    Left {
        status: 4,
        mask,
        table,
        said,
    }
}

/// Each load fails in turn: both outputs are as before, and the line has the name.
fn check_loads<R: Threads + Abort + Sync>(
    rt: &R,
    alloc: Global,
    line: &str,
    loads: &[&str],
    found: &Found<'_>,
) -> Result<(), Fail> {
    let mut call = BEFORE;
    for name in loads {
        call = call.saturating_add(1);
        let said = format!(in alloc; "opc: cannot read {name}\n")?;
        let left = Left {
            status: 3,
            mask: OLD,
            table: OLD,
            said: said.as_bytes(),
        };
        check_left(rt, alloc, line, found, one(alloc, call, 0)?, &left)?;
    }
    Ok(())
}

/// The steps in which what a call keeps grows.
const STEP: usize = 5;

/// This call fails, with each number of bytes in steps that it can keep, and with all of them.
fn check_keeps<R: Threads + Abort + Sync>(
    rt: &R,
    alloc: Global,
    line: &str,
    found: &Found<'_>,
    whole: &Whole,
    device: (Device, u32),
) -> Result<(), Fail> {
    let (device, call) = device;
    let most = given(whole, device);
    for step in 0..=most / STEP + 1 {
        let keep = step.saturating_mul(STEP).min(most);
        let kept = u32::try_from(keep).unwrap_or(u32::MAX);
        let fails = one(alloc, call, kept)?;
        let left = left_by(whole, device, keep);
        check_left(rt, alloc, line, found, fails, &left)?;
    }
    Ok(())
}

/// Each call of a run fails in turn. A call that were tried again would not fail then, and the status would be 0.
fn check_command<R: Threads + Abort + Sync>(
    rt: &R,
    alloc: Global,
    line: &str,
    loads: &[&str],
    found: &Found<'_>,
) -> Result<(), Fail> {
    let whole = whole_of(rt, alloc, line, found)?;
    check_loads(rt, alloc, line, loads, found)?;
    let loaded = u32::try_from(loads.len()).unwrap_or(u32::MAX);
    let mut call = BEFORE.saturating_add(loaded);
    for device in [Device::First, Device::Second, Device::Line] {
        call = call.saturating_add(1);
        check_keeps(rt, alloc, line, found, &whole, (device, call))?;
    }
    let left = Left {
        status: 0,
        mask: &whole.mask,
        table: &whole.table,
        said: &whole.said,
    };
    let after = one(alloc, call.saturating_add(1), 0)?;
    check_left(rt, alloc, line, found, after, &left)
}

#[test]
fn each_call_of_each_command_fails(rt: HostRuntime) -> Result<(), Fail> {
    let alloc = rt.alloc();
    let layout = layout_of(alloc, &[SQUARE])?;
    let kernels = kernel_of(alloc, &ONES)?;
    let rules = rules_of(alloc, &[])?;
    let found = Found {
        layout: &layout,
        kernels: &kernels,
        rules: &rules,
        moves: b"0 1\n3 -1\n",
    };
    for (line, loads) in COMMANDS {
        check_command(&rt, alloc, line, loads, &found)?;
    }
    Ok(())
}
