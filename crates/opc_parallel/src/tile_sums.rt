//! What the owner of some tiles adds to them.

ghost use Rattle.std.specs.Prelude.{◌≡◌, ◌+◌, ◌*◌, ◌^◌, ◌<◌, ◌≤◌, All, length};
ghost use Rattle.opc_base.specs.Changes.{RisesBy};
ghost use Rattle.lane_intensity.specs.Differences.{AreLanes};
ghost use Rattle.tiles.specs.Tiles.{fragments_of, tile_count};
ghost use Rattle.tiles.specs.Meets.{touched_between};
ghost use Rattle.opc_parallel.specs.Stored.{CanTake, change_at, list_change, most_steps, start_at};
ghost use Rattle.opc_parallel.specs.Conditions.{IsReady, IsSweepable, setting_of};

use crate::fragment_sums::{add_if_near, stride};
use crate::work::Work;
use opc_base::{Steps, Swept};
use std::sync::ledger::{Blank, Ledger};

/// Adds all rectangles to the tiles from `first` up to but not including `last`, at a counter of its own.
pub fn apply_tiles<L: Ledger>(
    work: &Work,
    swept: &[Swept],
    first: u32,
    last: u32,
    sums: &mut [i64],
    blank: Blank,
)
    requires ready { IsReady (setting_of work.now) }
    requires swept { All IsSweepable swept.now }
    requires order { first ≤ last }
    requires tiles { last ≤ tile_count work.now.index.now }
    requires size { start_at (setting_of work.now) first + length sums.old ≡ start_at (setting_of work.now) last }
    requires fits { CanTake (setting_of work.now) swept.now (start_at (setting_of work.now) first) sums.old }
    requires name { blank.name ≡ L.name }
    requires parts { blank.parts ≡ L.parts }
    requires some { 0 < blank.parts }
    ensures { RisesBy (list_change (setting_of work.now) swept.now) (start_at (setting_of work.now) first) sums.old sums.new }
{
    let mut steps: Steps<L> = Steps::new(blank);
    for one in swept {
        add_to_tiles(work, *one, first, last, sums, &mut steps);
    }
}

/// Adds a rectangle to those of these tiles that it reaches.
pub fn add_to_tiles<L: Ledger>(
    work: &Work,
    swept: Swept,
    first: u32,
    last: u32,
    sums: &mut [i64],
    steps: &mut Steps<L>,
)
    requires ready { IsReady (setting_of work.now) }
    requires swept { IsSweepable swept }
    requires order { first ≤ last }
    requires tiles { last ≤ tile_count work.now.index.now }
    requires size { start_at (setting_of work.now) first + length sums.old ≡ start_at (setting_of work.now) last }
    requires small { AreLanes (length sums.old) (2 ^ 62) sums.old }
    ensures rises { RisesBy (change_at (setting_of work.now) swept) (start_at (setting_of work.now) first) sums.old sums.new }
    ensures cost { steps.new ≤ steps.old + most_steps work.now.samples work.now.index.now (touched_between work.now.index.now swept.rect first last) }
{
    let base = start_of_tile(work, first);
    let mut next = first;
    while let Some(tile) = work.index.first_met(&swept.rect, next, last) {
        let start = start_of_tile(work, tile) - base;
        let end = start_of_tile(work, tile + 1) - base;
        let own = &mut sums[start..end];
        add_to_tile(work, swept, tile, own, steps);
        next = tile + 1;
    }
}

/// The first of the numbers that are stored for a tile, or the number of all of them.
pub fn start_of_tile(work: &Work, tile: u32) -> usize
    requires tile { tile ≤ tile_count work.now.index.now }
    requires samples { work.now.samples ≤ 16 }
    ensures { result ≡ start_at (setting_of work.now) tile }
{
    stride(work) * work.index.first_place(tile) as usize
}

/// Adds a rectangle to all fragments of a tile.
fn add_to_tile<L: Ledger>(
    work: &Work,
    swept: Swept,
    tile: u32,
    sums: &mut [i64],
    steps: &mut Steps<L>,
)
    requires ready { IsReady (setting_of work.now) }
    requires swept { IsSweepable swept }
    requires tile { tile < tile_count work.now.index.now }
    requires size { start_at (setting_of work.now) tile + length sums.old ≡ start_at (setting_of work.now) (tile + 1) }
    requires small { AreLanes (length sums.old) (2 ^ 62) sums.old }
    ensures rises { RisesBy (change_at (setting_of work.now) swept) (start_at (setting_of work.now) tile) sums.old sums.new }
    ensures cost { steps.new ≤ steps.old + 8 * work.now.samples * length (fragments_of work.now.index.now tile) }
{
    let stride = stride(work);
    for (place, number) in work.index.fragments(tile).iter().enumerate() {
        let start = place * stride;
        let own = &mut sums[start..start + stride];
        add_if_near(work, swept, *number, own, steps);
    }
}
