//! Tables of prefix blocks.

ghost use Rattle.std.specs.Prelude.{◌≡◌, ℕ, ◌+◌, ◌*◌, ◌^◌, ◌<◌, ◌≤◌, IfOk, length, neg_ℤ, pos, slice_index_or, unsigned_abs, vec_len, ◌-ℤ◌};
ghost use Rattle.std.specs.Int.{int_max, int_min};
ghost use Rattle.opc_base.specs.Blocks.{place_before};
ghost use Rattle.opc_base.specs.Lanes.{LanesAre, block_of_lane, ground_of_lane, lane_count};
ghost use Rattle.opc_base.specs.Optics.{KeepsBounds};
ghost use Rattle.prefix_tables.specs.Places.{AreNumbersWithin, HoldsFirst, table_place, table_size};

use crate::entries::{contrast_of, lanes_of, passed};
use crate::ground_sums::ground_sums;
use opc_base::{KernelSet, NoMemory, Steps};
use std::alloc::Global;
use std::marker::Model;
use std::snapshot::Snapshot;
use std::sync::ledger::Ledger;

/// The blocks of all lanes at all places of a set of kernels, and the ground of each lane.
///
/// There is one row more below the kernels' places, and one column more at their left, whose blocks are empty.
#[derive(Drop)]
pub struct Tables {
    set: Snapshot<KernelSet>,
    reach: u16,
    lanes: usize,
    sums: Vec<i64>,
    uncovered: Vec<i64>,
}

impl Model for Tables {
    ghost use Rattle.opc_base.specs.declared.kernels.KernelSet.{KernelSet};
    ghost use Rattle.prefix_tables.specs.Places.{AreTables};

    ghost Value = { KernelSet };

    ghost view = { λ t. t.set.value };

    ghost invariant = { λ t. AreTables t.set.value t.reach t.lanes t.sums.items t.uncovered.items };
}

impl Tables {
    /// Sums the blocks of all lanes.
    pub fn build(alloc: Global, kernels: &KernelSet) -> Result<Self, NoMemory>
        requires bounds { KeepsBounds kernels.now }
        ensures set { IfOk result (λ tables. tables ≡ kernels.now) }
    {
        let sums = block_sums(alloc, kernels)?;
        let uncovered = ground_sums(alloc, kernels)?;
        Ok(Tables {
            set: Snapshot::of(kernels),
            reach: kernels.reach,
            lanes: lanes_of(kernels),
            sums,
            uncovered,
        })
    }

    /// Two for each kernel: its real part, and then its imaginary part.
    pub fn lanes(&self) -> usize
        ensures count { result ≡ lane_count self.now }
        ensures bounds { KeepsBounds self.now }
    {
        self.lanes
    }

    /// How far the kernels reach to each side, in pixels.
    pub fn reach(&self) -> i32
        ensures reach { result ≡ pos self.now.reach }
        ensures bounds { KeepsBounds self.now }
    {
        i32::from(self.reach)
    }

    /// The lanes' blocks at a place: the sums over all entries at most `dx` to the right and at most `dy` up.
    ///
    /// It is 0 where one of the two is below the kernels' places, and places beyond their reach count as the last.
    #[inline]
    pub fn block<L: Ledger>(&self, dx: i32, dy: i32, steps: &mut Steps<L>) -> &[i64]
        ensures lanes { LanesAre self.now (λ lane. block_of_lane self.now lane dx dy) result.now }
        ensures small { AreNumbersWithin (2 ^ 27) result.now }
        ensures cost { steps.new ≡ steps.old + 1 }
    {
        steps.tick();
        let width = 2 * usize::from(self.reach) + 2;
        let row = clamped(self.reach, dy);
        let column = clamped(self.reach, dx);
        let start = (row * width + column) * self.lanes;
        &self.sums[start..start + self.lanes]
    }

    /// The lanes' amplitudes where no pixel is covered.
    pub fn ground(&self) -> &[i64]
        ensures lanes { LanesAre self.now (ground_of_lane self.now) result.now }
        ensures small { AreNumbersWithin 34080768 result.now }
    {
        &self.uncovered
    }
}

/// How far a place stands from the one before the first; places beyond the reach count as the last, and earlier ones as that one.
#[inline]
fn clamped(reach: u16, d: i32) -> usize
    requires { reach ≤ 64 }
    ensures range { result < 2 * reach + 2 }
    ensures value { place_before reach result ≡ int_min (int_max d (neg_ℤ (pos reach) -ℤ pos 1)) (pos reach) }
{
    let reach = i32::from(reach);
    (d.max(-reach - 1).min(reach) + reach + 1) as usize
}

/// The blocks of all lanes by rows, in each by columns, in each by lanes.
fn block_sums(alloc: Global, kernels: &KernelSet) -> Result<Vec<i64>, NoMemory>
    requires bounds { KeepsBounds kernels.now }
    ensures size { IfOk result (λ sums. length sums.items ≡ table_size kernels.now) }
    ensures holds { IfOk result (λ sums. HoldsFirst kernels.now sums.items (table_size kernels.now)) }
{
    let width = 2 * usize::from(kernels.reach) + 2;
    let lanes = lanes_of(kernels);
    let mut sums = Vec::new(alloc);
    for row in 0..width {
        for column in 0..width {
            for lane in 0..lanes {
                let block = next_block(kernels, &sums, row, column, lane);
                sums.push(block)?;
            }
        }
    }
    Ok(sums)
}

/// The block of a lane at a place, from the blocks at all places before it.
fn next_block(kernels: &KernelSet, sums: &[i64], row: usize, column: usize, lane: usize) -> i64
    requires bounds { KeepsBounds kernels.now }
    requires row { row < 2 * kernels.now.reach + 2 }
    requires column { column < 2 * kernels.now.reach + 2 }
    requires lane { lane < lane_count kernels.now }
    requires size { length sums.now ≡ table_place kernels.now row column lane }
    requires holds { HoldsFirst kernels.now sums.now (table_place kernels.now row column lane) }
    ensures { result ≡ block_of_lane kernels.now lane (place_before kernels.now.reach column) (place_before kernels.now.reach row) }
{
    if row == 0 || column == 0 {
        return 0;
    }
    let beside = earlier_block(kernels, sums, row, column - 1, lane);
    let under = earlier_block(kernels, sums, row - 1, column, lane);
    let across = earlier_block(kernels, sums, row - 1, column - 1, lane);
    let here = passed(kernels, row - 1, column - 1, lane, contrast_of(kernels));
    beside + under - across + here
}

/// A block that the table has already.
fn earlier_block(kernels: &KernelSet, sums: &[i64], row: usize, column: usize, lane: usize) -> i64
    requires bounds { KeepsBounds kernels.now }
    requires column { column < 2 * kernels.now.reach + 2 }
    requires lane { lane < lane_count kernels.now }
    requires earlier { table_place kernels.now row column lane < length sums.now }
    requires holds { HoldsFirst kernels.now sums.now (length sums.now) }
    ensures { result ≡ block_of_lane kernels.now lane (place_before kernels.now.reach column) (place_before kernels.now.reach row) }
{
    let width = 2 * usize::from(kernels.reach) + 2;
    sums[(row * width + column) * lanes_of(kernels) + lane]
}
