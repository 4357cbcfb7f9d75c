//! Amplitudes where no pixel is covered.

ghost use Rattle.std.specs.Prelude.{◌≡◌, ◌+◌, ◌*◌, ◌<◌, ◌≤◌, IfOk, unsigned_abs, vec_len};
ghost use Rattle.opc_base.specs.Blocks.{place_at};
ghost use Rattle.opc_base.specs.Lanes.{LanesAre, ground_of_lane, lane_count};
ghost use Rattle.opc_base.specs.Optics.{KeepsBounds};
ghost use Rattle.prefix_tables.specs.Places.{ground_row};

use crate::entries::{lanes_of, passed};
use opc_base::{KernelSet, NoMemory};
use std::alloc::Global;

/// The ground of each lane.
pub fn ground_sums(alloc: Global, kernels: &KernelSet) -> Result<Vec<i64>, NoMemory>
    requires { KeepsBounds kernels.now }
    ensures { IfOk result (λ sums. LanesAre kernels.now (ground_of_lane kernels.now) sums.items) }
{
    let mut sums = Vec::new(alloc);
    for lane in 0..lanes_of(kernels) {
        sums.push(ground_sum(kernels, lane))?;
    }
    Ok(sums)
}

/// The ground of a lane.
fn ground_sum(kernels: &KernelSet, lane: usize) -> i64
    requires bounds { KeepsBounds kernels.now }
    requires lane { lane < lane_count kernels.now }
    ensures { result ≡ ground_of_lane kernels.now lane }
{
    let width = 2 * usize::from(kernels.reach) + 1;
    let mut sum = 0;
    for row in 0..width {
        sum += row_sum(kernels, row, lane);
    }
    sum
}

/// What a row of the kernel adds to a lane's ground.
fn row_sum(kernels: &KernelSet, row: usize, lane: usize) -> i64
    requires bounds { KeepsBounds kernels.now }
    requires row { row < 2 * kernels.now.reach + 1 }
    requires lane { lane < lane_count kernels.now }
    ensures value { result ≡ ground_row kernels.now lane (place_at kernels.now.reach row) }
    ensures small { unsigned_abs result ≤ 2048 * 129 }
{
    let width = 2 * usize::from(kernels.reach) + 1;
    let mut sum = 0;
    for column in 0..width {
        sum += passed(kernels, row, column, lane, kernels.uncovered);
    }
    sum
}
