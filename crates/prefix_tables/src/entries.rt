//! Entries of kernels by lane, row and column.

ghost use Rattle.std.specs.Prelude.{◌≡◌, ◌+◌, ◌*◌, ◌<◌, ◌≤◌, unsigned_abs};
ghost use Rattle.opc_base.specs.Blocks.{place_at};
ghost use Rattle.opc_base.specs.Lanes.{contrast, entries_of_lane, lane_count, passed_in_lane};
ghost use Rattle.opc_base.specs.Optics.{KeepsBounds, entry_at};

use opc_base::{Entry, KernelSet};

/// Two for each kernel: its real part, and then its imaginary part.
pub fn lanes_of(kernels: &KernelSet) -> usize
    requires { KeepsBounds kernels.now }
    ensures count { result ≡ lane_count kernels.now }
    ensures few { result ≤ 32 }
{
    2 * kernels.kernels.as_slice().len()
}

/// What a covered pixel lets through beyond any other.
pub fn contrast_of(kernels: &KernelSet) -> Entry
    requires { KeepsBounds kernels.now }
    ensures { result ≡ contrast kernels.now }
{
    Entry {
        re: kernels.covered.re - kernels.uncovered.re,
        im: kernels.covered.im - kernels.uncovered.im,
    }
}

/// A lane's part of an entry times a transmission.
pub fn passed(
    kernels: &KernelSet,
    row: usize,
    column: usize,
    lane: usize,
    transmission: Entry,
) -> i64
    requires bounds { KeepsBounds kernels.now }
    requires row { row < 2 * kernels.now.reach + 1 }
    requires column { column < 2 * kernels.now.reach + 1 }
    requires lane { lane < lane_count kernels.now }
    ensures { result ≡ passed_in_lane kernels.now lane transmission (place_at kernels.now.reach column) (place_at kernels.now.reach row) }
{
    let entry = entry(kernels, row, column, lane);
    if lane % 2 == 0 {
        entry.times_re(transmission)
    } else {
        entry.times_im(transmission)
    }
}

/// An entry of a lane's kernel.
fn entry(kernels: &KernelSet, row: usize, column: usize, lane: usize) -> Entry
    requires bounds { KeepsBounds kernels.now }
    requires row { row < 2 * kernels.now.reach + 1 }
    requires column { column < 2 * kernels.now.reach + 1 }
    requires lane { lane < lane_count kernels.now }
    ensures { result ≡ entry_at kernels.now.reach (entries_of_lane kernels.now lane) (place_at kernels.now.reach column) (place_at kernels.now.reach row) }
{
    let width = 2 * usize::from(kernels.reach) + 1;
    let kernel = &kernels.kernels.as_slice()[lane / 2];
    kernel.entries.as_slice()[row * width + column]
}
