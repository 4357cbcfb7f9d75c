//! Adds what a rectangle gives.

ghost use Rattle.std.specs.Prelude.{◌≡◌, ℕ, ◌+◌, ◌^◌, ◌<◌, ◌≤◌, pos, length, slice_index_or, unsigned_abs};
ghost use Rattle.opc_base.specs.Changes.{RisesBetween, RisesBy};
ghost use Rattle.opc_base.specs.Lanes.{LanesAre, amplitude_of_lane, lane_count, rect_change};
ghost use Rattle.opc_base.specs.Plane.{IsOrdered, IsPixWithin, IsRectWithin, IsSweep, PixelSet};
ghost use Rattle.lane_intensity.specs.Differences.{AreLanes, four_lanes};

use opc_base::{Pix, Rect, Steps};
use prefix_tables::Tables;
use std::simd::prelude::*;
use std::sync::ledger::Ledger;

/// Adds to each lane `sign` times what the pixels of a rectangle give in that lane, as the pixel `at` sees them.
///
/// The sign is 1 or -1. The rectangle may lie anywhere, and partly or wholly out of reach. It takes no memory.
#[inline]
pub fn add_rect<L: Ledger>(
    acc: &mut [i64],
    tables: &Tables,
    at: Pix,
    rect: Rect,
    sign: i8,
    steps: &mut Steps<L>,
)
    requires lanes { AreLanes (lane_count tables.now) (2 ^ 62) acc.old }
    requires sign { unsigned_abs sign ≡ 1 }
    requires ordered { IsOrdered rect }
    requires rect { IsRectWithin 1050000 rect }
    requires at { IsPixWithin 1050000 at }
    ensures rises { RisesBy (rect_change tables.now rect sign at.x at.y) 0 acc.old acc.new }

    // from the amplitudes of a mask to those of the mask to which the rectangle is added, or from which it is taken
    ensures amplitudes { (before after : PixelSet) → IsSweep (record { rect = rect; sign = sign }) before after → LanesAre tables.now (amplitude_of_lane tables.now before at.x at.y) acc.old → LanesAre tables.now (amplitude_of_lane tables.now after at.x at.y) acc.new }
    ensures cost { steps.new ≡ steps.old + 4 }
{
    let low_left = tables.block(at.x - rect.x0, at.y - rect.y0, steps);
    let low_right = tables.block(at.x - rect.x1, at.y - rect.y0, steps);
    let high_left = tables.block(at.x - rect.x0, at.y - rect.y1, steps);
    let high_right = tables.block(at.x - rect.x1, at.y - rect.y1, steps);
    if sign > 0 {
        add_difference(acc, low_left, low_right, high_left, high_right);
    } else {
        add_difference(acc, low_right, low_left, high_right, high_left);
    }
}

/// Adds `a - b - c + d` to each lane.
fn add_difference(acc: &mut [i64], a: &[i64], b: &[i64], c: &[i64], d: &[i64])
    requires acc { AreLanes (length acc.old) (2 ^ 62) acc.old }
    requires a { AreLanes (length acc.old) (2 ^ 27) a.now }
    requires b { AreLanes (length acc.old) (2 ^ 27) b.now }
    requires c { AreLanes (length acc.old) (2 ^ 27) c.now }
    requires d { AreLanes (length acc.old) (2 ^ 27) d.now }
    ensures { RisesBy (four_lanes a.now b.now c.now d.now) 0 acc.old acc.new }
{
    let mut lane = 0;
    while lane + 8 <= acc.len() {
        add_eight(acc, a, b, c, d, lane);
        lane += 8;
    }
    while lane < acc.len() {
        add_one(acc, a, b, c, d, lane);
        lane += 1;
    }
}

/// Adds `a - b - c + d` to eight lanes.
#[inline]
fn add_eight(acc: &mut [i64], a: &[i64], b: &[i64], c: &[i64], d: &[i64], lane: usize)
    requires lane { lane + 8 ≤ length acc.old }
    requires acc { (k : ℕ) → k < 8 → unsigned_abs (slice_index_or acc.old (lane + k) (pos 0)) ≤ 2 ^ 62 }
    requires a { AreLanes (length acc.old) (2 ^ 27) a.now }
    requires b { AreLanes (length acc.old) (2 ^ 27) b.now }
    requires c { AreLanes (length acc.old) (2 ^ 27) c.now }
    requires d { AreLanes (length acc.old) (2 ^ 27) d.now }
    ensures { RisesBetween (four_lanes a.now b.now c.now d.now) 0 lane (lane + 8) acc.old acc.new }
{
    let difference = i64x8::from_slice(&a[lane..])
        .strict_sub(i64x8::from_slice(&b[lane..]))
        .strict_sub(i64x8::from_slice(&c[lane..]))
        .strict_add(i64x8::from_slice(&d[lane..]));
    i64x8::from_slice(&acc[lane..])
        .strict_add(difference)
        .copy_to_slice(&mut acc[lane..]);
}

/// Adds `a - b - c + d` to one lane.
#[inline]
fn add_one(acc: &mut [i64], a: &[i64], b: &[i64], c: &[i64], d: &[i64], lane: usize)
    requires lane { lane < length acc.old }
    requires acc { unsigned_abs (slice_index_or acc.old lane (pos 0)) ≤ 2 ^ 62 }
    requires a { AreLanes (length acc.old) (2 ^ 27) a.now }
    requires b { AreLanes (length acc.old) (2 ^ 27) b.now }
    requires c { AreLanes (length acc.old) (2 ^ 27) c.now }
    requires d { AreLanes (length acc.old) (2 ^ 27) d.now }
    ensures { RisesBetween (four_lanes a.now b.now c.now d.now) 0 lane (lane + 1) acc.old acc.new }
{
    acc[lane] += a[lane] - b[lane] - c[lane] + d[lane];
}
