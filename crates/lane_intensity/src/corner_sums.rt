//! Adds what the corners of a set give.

ghost use Rattle.std.specs.Prelude.{◌≡◌, ℕ, ℤ, ◌+◌, ◌^◌, ◌<◌, ◌≤◌, ◌*ℤ◌, ◌-ℤ◌, pos, All, length, slice_index_or, unsigned_abs};
ghost use Rattle.opc_base.specs.Changes.{RisesBetween, RisesBy};
ghost use Rattle.opc_base.specs.Lanes.{AddUpNear, LanesAre, amplitude_of_lane, corners_change, ground_of_lane, lane_count, part_of_lane};
ghost use Rattle.opc_base.specs.Plane.{IsPixWithin, PixelSet};
ghost use Rattle.lane_intensity.specs.Differences.{AreLanes, IsCornerInRange, corner_change, times_lane};

use opc_base::{Corner, Pix, Steps};
use prefix_tables::Tables;
use std::simd::prelude::*;
use std::sync::ledger::Ledger;

/// Adds to each lane the sum of the signs of the corners times the blocks at them, as the pixel `at` sees them.
///
/// Signs are from -2 to 2, and the corners may stand in any order and anywhere. It takes no memory.
pub fn add_corners<L: Ledger>(
    acc: &mut [i64],
    tables: &Tables,
    at: Pix,
    corners: &[Corner],
    steps: &mut Steps<L>,
)
    requires lanes { AreLanes (lane_count tables.now) (2 ^ 62) acc.old }
    requires corners { All (IsCornerInRange 1050000) corners.now }
    requires few { length corners.now ≤ 1048576 }
    requires at { IsPixWithin 1050000 at }
    ensures rises { RisesBy (corners_change tables.now corners.now at.x at.y) 0 acc.old acc.new }

    // what the pixels of each set give, which the corners add up to within the reach
    ensures part { (pixels : PixelSet) → AddUpNear tables.now.reach corners.now pixels at.x at.y → RisesBy (part_of_lane tables.now pixels at.x at.y) 0 acc.old acc.new }

    // from the ground on, the amplitudes of that set
    ensures amplitudes { (pixels : PixelSet) → AddUpNear tables.now.reach corners.now pixels at.x at.y → LanesAre tables.now (ground_of_lane tables.now) acc.old → LanesAre tables.now (amplitude_of_lane tables.now pixels at.x at.y) acc.new }
    ensures small { (pixels : PixelSet) → AddUpNear tables.now.reach corners.now pixels at.x at.y → LanesAre tables.now (ground_of_lane tables.now) acc.old → AreLanes (lane_count tables.now) 34080768 acc.new }
    ensures cost { steps.new ≡ steps.old + length corners.now }
{
    prove!(acc.len() == tables.lanes());
    for corner in corners {
        add_corner(acc, tables, at, *corner, steps);
    }
}

/// Adds what one corner gives.
fn add_corner<L: Ledger>(
    acc: &mut [i64],
    tables: &Tables,
    at: Pix,
    corner: Corner,
    steps: &mut Steps<L>,
)
    requires lanes { AreLanes (lane_count tables.now) (2 ^ 62 + 2 ^ 48) acc.old }
    requires corner { IsCornerInRange 1050000 corner }
    requires at { IsPixWithin 1050000 at }
    ensures rises { RisesBy (corner_change tables.now corner at.x at.y) 0 acc.old acc.new }
    ensures small { (lane : ℕ) → lane < lane_count tables.now → unsigned_abs (corner_change tables.now corner at.x at.y lane) ≤ 2 ^ 28 }
    ensures cost { steps.new ≡ steps.old + 1 }
{
    let block = tables.block(at.x - corner.x, at.y - corner.y, steps);
    add_times(acc, i64::from(corner.sign), block);
}

/// Adds `times` times the block to each lane.
fn add_times(acc: &mut [i64], times: i64, block: &[i64])
    requires acc { AreLanes (length acc.old) (2 ^ 62 + 2 ^ 48) acc.old }
    requires times { unsigned_abs times ≤ 2 }
    requires block { AreLanes (length acc.old) (2 ^ 27) block.now }
    ensures { RisesBy (times_lane times block.now) 0 acc.old acc.new }
{
    let mut lane = 0;
    while lane + 8 <= acc.len() {
        add_eight_times(acc, times, block, lane);
        lane += 8;
    }
    while lane < acc.len() {
        add_one_time(acc, times, block, lane);
        lane += 1;
    }
}

/// Adds `times` times the block to eight lanes.
#[inline]
fn add_eight_times(acc: &mut [i64], times: i64, block: &[i64], lane: usize)
    requires lane { lane + 8 ≤ length acc.old }
    requires acc { (k : ℕ) → k < 8 → unsigned_abs (slice_index_or acc.old (lane + k) (pos 0)) ≤ 2 ^ 62 + 2 ^ 48 }
    requires times { unsigned_abs times ≤ 2 }
    requires block { AreLanes (length acc.old) (2 ^ 27) block.now }
    ensures { RisesBetween (times_lane times block.now) 0 lane (lane + 8) acc.old acc.new }
{
    let change = i64x8::splat(times).strict_mul(i64x8::from_slice(&block[lane..]));
    i64x8::from_slice(&acc[lane..])
        .strict_add(change)
        .copy_to_slice(&mut acc[lane..]);
}

/// Adds `times` times the block to one lane.
#[inline]
fn add_one_time(acc: &mut [i64], times: i64, block: &[i64], lane: usize)
    requires lane { lane < length acc.old }
    requires acc { unsigned_abs (slice_index_or acc.old lane (pos 0)) ≤ 2 ^ 62 + 2 ^ 48 }
    requires times { unsigned_abs times ≤ 2 }
    requires block { AreLanes (length acc.old) (2 ^ 27) block.now }
    ensures { RisesBetween (times_lane times block.now) 0 lane (lane + 1) acc.old acc.new }
{
    acc[lane] += times * block[lane];
}
