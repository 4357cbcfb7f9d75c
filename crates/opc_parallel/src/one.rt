//! One rectangle, which the caller adds itself.

ghost use Rattle.std.specs.Prelude.{◌≡◌, ◌+◌, ◌*◌, ◌≤◌, pos, ◌+ℤ◌, ◌≤ℤ◌, [], ◌∷◌, length, unsigned_abs};
ghost use Rattle.tiles.specs.Tiles.{IsTilingOf};
ghost use Rattle.tiles.specs.Meets.{touched_tiles};
ghost use Rattle.opc_parallel.specs.Stored.{AddsAll, StaysSmall, most_steps, stride_of};
ghost use Rattle.opc_parallel.specs.Conditions.{IsSweepable};

use crate::tile_sums::add_to_tiles;
use crate::work::Work;
use fragment::Fragments;
use opc_base::{Steps, Swept};
use prefix_tables::Tables;
use std::sync::ledger::Ledger;
use tiles::TileIndex;

/// Adds one rectangle to every sample that it reaches, as `apply_all` does with a list of it alone, and looks at no other
/// tile than those that it reaches. It counts the steps of all its calls, and takes no memory.
pub fn apply_one<L: Ledger>(
    samples: i32,
    sums: &mut [i64],
    index: &TileIndex,
    fragments: &Fragments,
    tables: &Tables,
    swept: Swept,
    steps: &mut Steps<L>,
)
    requires samples { (pos 1 ≤ℤ samples) × (samples ≤ℤ pos 16) }
    requires size { length sums.old ≡ stride_of (record { set = tables.now; fragments = fragments.now; tiling = index.now; samples = unsigned_abs samples }) * length fragments.now }
    requires index { IsTilingOf fragments.now index.now.side index.now.halo index.now }
    requires halo { index.now.halo ≡ pos tables.now.reach +ℤ samples }
    requires swept { IsSweepable swept }
    requires small { StaysSmall (record { set = tables.now; fragments = fragments.now; tiling = index.now; samples = unsigned_abs samples }) (swept ∷ []) sums.old }

    // Each lane of each sample of each fragment rises by sign times what the rectangle's pixels give.
    ensures adds { AddsAll (record { set = tables.now; fragments = fragments.now; tiling = index.now; samples = unsigned_abs samples }) (swept ∷ []) sums.old sums.new }
    ensures cost { steps.new ≤ steps.old + most_steps (unsigned_abs samples) index.now (touched_tiles index.now swept.rect) }
{
    // The tables are of few lanes, and there are few fragments, so all sums can be counted.
    let _ = tables.lanes();
    let _ = fragments.count();
    let work = Work {
        index,
        fragments,
        tables,
        samples: samples.unsigned_abs(),
    };
    add_to_tiles(&work, swept, 0, index.count(), sums, steps);
}
