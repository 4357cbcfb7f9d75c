//! Sums of 0 to which all that is swept is added.
ghost use Rattle.std.specs.Prelude.{◌≡◌, ◌<◌, ◌≤◌, pos, ◌+ℤ◌, All, length};
ghost use Rattle.tiles.specs.Tiles.{IsTilingOf};
ghost use Rattle.opc_parallel.specs.Conditions.{IsSweepable};

use crate::layout::{edges, moves};
use fragment::Fragments;
use geometry_rows::fault::RowFault;
use opc_base::{NoMemory, NoWatch, Steps, Swept};
use opc_parallel::apply_all;
use optics_rows::seeds::Numbers;
use prefix_tables::Tables;
use std::alloc::Global;
use std::marker::Brand;
use std::sync::ledger::{Blank, Ledger};
use std::thread::Threads;
use tiles::TileIndex;

/// So many samples of a fragment lie to each side.
const SAMPLES: i32 = 8;

/// The sides of tiles, in pixels.
const SIDE: i32 = 64;

/// The sum, wrapping, of the squares of the sums of all lanes of all samples.
pub fn sum_of_squares<R: Threads + Sync>(
    rt: &R,
    alloc: Global,
    workers: u32,
    count: u32,
) -> Result<i64, RowFault> {
    let moving = edges(alloc, count)?;
    let swept = moves(alloc, &moving)?;
    let set = Numbers::new(1).set(alloc, 40, 8)?;
    let tables = Tables::build(alloc, &set)?;
    let sums = sums_of(rt, alloc, workers, moving.fragments(), &tables, &swept)?;
    Ok(squares_of(&sums))
}

fn squares_of(sums: &[i64]) -> i64 {
    let mut all = 0i64;
    for sum in sums {
        all = all.wrapping_add(sum.wrapping_mul(*sum));
    }
    all
}

/// The sums that the list leaves.
fn sums_of<R: Threads + Sync>(
    rt: &R,
    alloc: Global,
    workers: u32,
    fragments: &Fragments,
    tables: &Tables,
    swept: &[Swept],
) -> Result<Vec<i64>, NoMemory>
    requires swept { All IsSweepable swept.now }
    requires few { length swept.now ≤ 32768 }
{
    let index = TileIndex::build(alloc, fragments, SIDE, tables.reach() + SAMPLES)?;
    counted_sums::<R, Brand>(
        rt,
        alloc,
        workers,
        fragments,
        tables,
        &index,
        swept,
        Blank::new(1),
    )
}

/// The same, of fragments in tiles, at a counter of its own.
fn counted_sums<R: Threads + Sync, L: Ledger>(
    rt: &R,
    alloc: Global,
    workers: u32,
    fragments: &Fragments,
    tables: &Tables,
    index: &TileIndex,
    swept: &[Swept],
    blank: Blank,
) -> Result<Vec<i64>, NoMemory>
    requires tiling { IsTilingOf fragments.now index.now.side index.now.halo index.now }
    requires halo { index.now.halo ≡ pos tables.now.reach +ℤ pos 8 }
    requires swept { All IsSweepable swept.now }
    requires few { length swept.now ≤ 32768 }
    requires name { blank.name ≡ L.name }
    requires parts { blank.parts ≡ L.parts }
    requires some { 0 < blank.parts }
{
    let mut steps: Steps<L> = Steps::new(blank);
    let stride = 2 * SAMPLES.unsigned_abs() as usize * tables.lanes();
    let mut sums = vec![in alloc; 0i64; stride * fragments.count() as usize]?;
    if workers > 0 {
        apply_all(
            rt,
            workers.min(64),
            SAMPLES,
            &mut sums,
            index,
            fragments,
            tables,
            swept,
            &NoWatch,
            &mut steps,
        );
    }
    Ok(sums)
}
