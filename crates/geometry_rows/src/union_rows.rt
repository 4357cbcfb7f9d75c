//! Unions of many bars: across one another, where a plain sweep would meet a thousand million squares, and beside one
//! another, with rows of their own.

use crate::fault::RowFault;
use crate::shapes::{rect, region_of_rects};
use opc_base::{NoMemory, Rect};
use std::alloc::Global;
use std::test::Fail;

/// So many bars upward, and so many across all of them.
fn crossing_bars(alloc: Global, count: u16) -> Result<Vec<Rect>, NoMemory> {
    let past = 2 * i32::from(count);
    let mut bars = Vec::new(alloc);
    for index in 0..count {
        let at = 2 * i32::from(index);
        bars.push(rect(at, 0, at + 1, past))?;
        bars.push(rect(0, at, past, at + 1))?;
    }
    Ok(bars)
}

// The lowest rows tell that there are too many corners.
#[test]
fn refuses_bars_across_bars(rt: HostRuntime) -> Result<(), Fail> {
    let alloc = rt.alloc();
    let bars = crossing_bars(alloc, 32_000)?;
    assert!(rt; matches!(region_of_rects(alloc, &bars), Err(RowFault::TooManyCorners)));
    Ok(())
}

/// A bar of a comb, higher and lower than the one of the number before. Of 16,384 no two stand in one column, since 5 is
/// odd.
fn tooth(index: u16) -> Rect {
    let at = 2 * (5 * i32::from(index) % 16_384);
    let height = 1 + i32::from(index);
    rect(at, -height, at + 1, height)
}

// The most corners that a target may have, with a top and a bottom of its own for each bar.
#[test]
fn keeps_a_comb_of_many_rows(rt: HostRuntime) -> Result<(), Fail> {
    let alloc = rt.alloc();
    let mut teeth = Vec::new(alloc);
    let mut wanted = Vec::new(alloc);
    for index in 0..16_384 {
        teeth.push(tooth(index))?;
        wanted.push(tooth(16_383 - index))?;
    }
    let region = region_of_rects(alloc, &teeth)?;
    assert_eq!(rt; region.rects(), wanted.as_slice());
    Ok(())
}
