//! Sums of rectangles in lanes.

ghost use Rattle.std.specs.Prelude.{◌≡◌, ◌<◌};

use lane_intensity::add_rect;
use opc_base::{NoMemory, Pix, Steps};
use optics_rows::seeds::Numbers;
use prefix_tables::Tables;
use std::alloc::Global;
use std::marker::Brand;
use std::sync::ledger::{Blank, Ledger};

/// The real part of the last entry of the kernels, for which no tables are built.
pub fn last_entry(alloc: Global) -> Result<i64, NoMemory> {
    let set = Numbers::new(1).set(alloc, 64, 16)?;
    let Some(kernel) = set.kernels.as_slice().last() else {
        return Ok(0);
    };
    match kernel.entries.as_slice().last() {
        Some(entry) => Ok(i64::from(entry.re)),
        None => Ok(0),
    }
}

/// The sum, wrapping, of one lane in turn after each of so many rectangles was added to the ground.
pub fn sum_of_sums(alloc: Global, count: u32) -> Result<i64, NoMemory> {
    let mut numbers = Numbers::new(1);
    let tables = Tables::build(alloc, &numbers.set(alloc, 64, 16)?)?;
    add_all::<Brand>(alloc, &tables, &mut numbers, count, Blank::new(1))
}

fn add_all<L: Ledger>(
    alloc: Global,
    tables: &Tables,
    numbers: &mut Numbers,
    count: u32,
    blank: Blank,
) -> Result<i64, NoMemory>
    requires name { blank.name ≡ L.name }
    requires parts { blank.parts ≡ L.parts }
    requires some { 0 < blank.parts }
{
    let at = Pix { x: 0, y: 0 };
    let mut steps: Steps<L> = Steps::new(blank);
    let mut lanes = tables.ground().to_vec(alloc)?;
    let mut sum = 0i64;
    for turn in 0..count {
        let rect = numbers.rect(at, 100);
        lanes.copy_from_slice(tables.ground());
        add_rect(&mut lanes, tables, at, rect, 1, &mut steps);
        sum = sum.wrapping_add(lane_in_turn(&lanes, turn));
    }
    Ok(sum)
}

/// One of the 32 lanes, another one each turn.
fn lane_in_turn(lanes: &[i64], turn: u32) -> i64 {
    match lanes.get((turn % 32) as usize) {
        Some(lane) => *lane,
        None => 0,
    }
}
