//! The parts, and who runs them.

ghost use Rattle.std.specs.Prelude.{◌≡◌, ℤ, pos, ◌+ℤ◌, ◌+◌, ◌*◌, ◌<◌, ◌≤◌, ◌≤ℤ◌, All, length, sum_by, unsigned_abs};
ghost use Rattle.std.specs.Thread.{IsSync};
ghost use Rattle.opc_base.specs.Changes.{RisesBy};
ghost use Rattle.tiles.specs.Tiles.{IsTilingOf, tile_count};
ghost use Rattle.tiles.specs.Meets.{touched_tiles};
ghost use Rattle.opc_parallel.specs.Stored.{AddsAll, CanTake, StaysSmall, list_change, start_at, stride_of};
ghost use Rattle.opc_parallel.specs.Conditions.{IsReady, IsSweepable, setting_of};
ghost use Rattle.opc_parallel.specs.Parts.{IsRun, first_tile};

use crate::tile_sums::{apply_tiles, start_of_tile};
use crate::work::Work;
use fragment::Fragments;
use opc_base::{Rect, Steps, Swept, Watch};
use prefix_tables::Tables;
use std::marker::Brand;
use std::sync::ledger::{Blank, Ledger};
use std::thread::{Threads, join_mut};
use tiles::TileIndex;

/// Adds every rectangle of the list to every sample that it reaches, in as many parts as `workers`, or as tiles where
/// these are fewer. Lane l of sample t of the fragment at place q is number (2 samples q + t + samples) lanes + l.
///
/// Counts a step for each pair of a rectangle and a tile that it reaches, before the parts begin; the parts have counters
/// of their own. It can't be refused and takes no memory: where no thread can be made, the parts run one after the other.
pub fn apply_all<R: Threads + Sync, W: Watch + Sync, L: Ledger>(
    rt: &R,
    workers: u32,
    samples: i32,
    sums: &mut [i64],
    index: &TileIndex,
    fragments: &Fragments,
    tables: &Tables,
    swept: &[Swept],
    watch: &W,
    steps: &mut Steps<L>,
)
    requires workers { (1 ≤ workers) × (workers ≤ 64) }
    requires samples { (pos 1 ≤ℤ samples) × (samples ≤ℤ pos 16) }
    requires size { length sums.old ≡ stride_of (record { set = tables.now; fragments = fragments.now; tiling = index.now; samples = unsigned_abs samples }) * length fragments.now }
    requires index { IsTilingOf fragments.now index.now.side index.now.halo index.now }
    requires halo { index.now.halo ≡ pos tables.now.reach +ℤ samples }
    requires swept { All IsSweepable swept.now }
    requires small { StaysSmall (record { set = tables.now; fragments = fragments.now; tiling = index.now; samples = unsigned_abs samples }) swept.now sums.old }

    // Each lane of each sample of each fragment rises by the sum, over the list, of sign times what the rectangle's pixels give.
    ensures adds { AddsAll (record { set = tables.now; fragments = fragments.now; tiling = index.now; samples = unsigned_abs samples }) swept.now sums.old sums.new }
    ensures cost { steps.new ≡ steps.old + sum_by (λ one. length (touched_tiles index.now one.rect)) swept.now }
{
    count_pairs(index, swept, steps);

    // The tables are of few lanes, and there are few fragments, so all sums can be counted.
    let _ = tables.lanes();
    let _ = fragments.count();
    let work = Work {
        index,
        fragments,
        tables,
        samples: samples.unsigned_abs(),
    };
    let parts = workers.min(index.count());
    if parts > 0 {
        run_parts(rt, watch, &work, swept, parts, 0, parts, 0, sums);
    }
}

/// Counts a step for each pair of a rectangle and a tile that it reaches.
fn count_pairs<L: Ledger>(index: &TileIndex, swept: &[Swept], steps: &mut Steps<L>)
    ensures { steps.new ≡ steps.old + sum_by (λ one. length (touched_tiles index.now one.rect)) swept.now }
{
    for one in swept {
        count_touched(index, &one.rect, steps);
    }
}

/// Counts a step for each tile that a rectangle reaches.
fn count_touched<L: Ledger>(index: &TileIndex, rect: &Rect, steps: &mut Steps<L>)
    ensures { steps.new ≡ steps.old + length (touched_tiles index.now rect.now) }
{
    for _tile in index.touched(rect) {
        steps.tick();
    }
}

/// The first tile of a part.
fn tile_of_part(tiles: u32, parts: u32, part: u32) -> u32
    requires some { 0 < parts }
    requires within { part ≤ parts }
    requires few { tiles ≤ 32768 }
    ensures is { result ≡ first_tile tiles parts part }
    ensures within { result ≤ tiles }
{
    (u64::from(part) * u64::from(tiles) / u64::from(parts)) as u32
}

/// Runs `count` parts, the front half in a thread of its own. The sums are those of these parts, and begin at number
/// `base` of all.
#[cycle(parts)]
fn run_parts<R: Threads + Sync, W: Watch + Sync>(
    rt: &R,
    watch: &W,
    work: &Work,
    swept: &[Swept],
    parts: u32,
    from: u32,
    count: u32,
    base: usize,
    sums: &mut [i64],
)
    requires ready { IsReady (setting_of work.now) }
    requires swept { All IsSweepable swept.now }
    requires run { IsRun (start_at (setting_of work.now)) (tile_count work.now.index.now) parts from count base (length sums.old) }
    requires fits { CanTake (setting_of work.now) swept.now base sums.old }
    ensures { RisesBy (list_change (setting_of work.now) swept.now) base sums.old sums.new }
{
    if count == 1 {
        watch.entered(from);
        run_part(work, swept, parts, from, base, sums);
        return;
    }
    let low = count / 2;
    let tile = tile_of_part(work.index.count(), parts, from + low);
    let middle = start_of_tile(work, tile);
    let (front, back) = sums.split_at_mut(middle - base);
    run_both(
        rt,
        watch,
        work,
        swept,
        parts,
        from,
        low,
        base,
        front,
        from + low,
        count - low,
        middle,
        back,
    );
}

/// Runs two runs of parts side by side.
#[cycle(parts)]
fn run_both<R: Threads + Sync, W: Watch + Sync>(
    rt: &R,
    watch: &W,
    work: &Work,
    swept: &[Swept],
    parts: u32,
    from: u32,
    low: u32,
    base: usize,
    front: &mut [i64],
    up: u32,
    high: u32,
    middle: usize,
    back: &mut [i64],
)
    requires ready { IsReady (setting_of work.now) }
    requires swept { All IsSweepable swept.now }
    requires front { IsRun (start_at (setting_of work.now)) (tile_count work.now.index.now) parts from low base (length front.old) }
    requires back { IsRun (start_at (setting_of work.now)) (tile_count work.now.index.now) parts up high middle (length back.old) }
    requires front_fits { CanTake (setting_of work.now) swept.now base front.old }
    requires back_fits { CanTake (setting_of work.now) swept.now middle back.old }
    ensures front { RisesBy (list_change (setting_of work.now) swept.now) base front.old front.new }
    ensures back { RisesBy (list_change (setting_of work.now) swept.now) middle back.old back.new }
{
    let mut first = ||
        requires { IsSync R.row × IsSync W.row × IsReady (setting_of work.now) × All IsSweepable swept.now × IsRun (start_at (setting_of work.now)) (tile_count work.now.index.now) parts from low base (length front.now) × CanTake (setting_of work.now) swept.now base front.now }
        ensures { RisesBy (list_change (setting_of work.entry.now) swept.entry.now) base front.entry.now front.exit.now }
    { run_parts(rt, watch, work, swept, parts, from, low, base, front) };
    let mut second = ||
        requires { IsSync R.row × IsSync W.row × IsReady (setting_of work.now) × All IsSweepable swept.now × IsRun (start_at (setting_of work.now)) (tile_count work.now.index.now) parts up high middle (length back.now) × CanTake (setting_of work.now) swept.now middle back.now }
        ensures { RisesBy (list_change (setting_of work.entry.now) swept.entry.now) middle back.entry.now back.exit.now }
    { run_parts(rt, watch, work, swept, parts, up, high, middle, back) };
    join_mut(rt, &mut first, &mut second);
}

/// Adds all rectangles to the tiles of a part.
fn run_part(work: &Work, swept: &[Swept], parts: u32, part: u32, base: usize, sums: &mut [i64])
    requires ready { IsReady (setting_of work.now) }
    requires swept { All IsSweepable swept.now }
    requires run { IsRun (start_at (setting_of work.now)) (tile_count work.now.index.now) parts part 1 base (length sums.old) }
    requires fits { CanTake (setting_of work.now) swept.now base sums.old }
    ensures { RisesBy (list_change (setting_of work.now) swept.now) base sums.old sums.new }
{
    let first = tile_of_part(work.index.count(), parts, part);
    let last = tile_of_part(work.index.count(), parts, part + 1);
    apply_tiles::<Brand>(work, swept, first, last, sums, Blank::new(1));
}
