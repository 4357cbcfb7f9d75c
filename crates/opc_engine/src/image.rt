//! The image of a region at one pixel.
ghost use Rattle.std.specs.Prelude.{◌≡◌, ◌<◌, ◌≤◌, ◌≤ℤ◌, All, FitsSigned, IfOk, length, pos, unsigned_abs};
ghost use Rattle.std.specs.Int.{w64};
ghost use Rattle.opc_base.specs.Lanes.{AddUpNear, LanesAre, amplitude_of_lane, lane_count, weights_of};
ghost use Rattle.opc_base.specs.Plane.{IsPixWithin, IsRectWithin, cover};
ghost use Rattle.opc_base.specs.Optics.{KeepsBounds, intensity};
ghost use Rattle.corners.specs.Windows.{Shows};
ghost use Rattle.lane_intensity.specs.Differences.{AreLanes, IsCornerInRange};

use corners::corners_of;
use lane_intensity::{add_corners, intensity};
use opc_base::{Corner, KernelSet, NoMemory, Pix, Rect, Region, Steps};
use prefix_tables::Tables;
use std::alloc::Global;
use std::marker::Brand;
use std::sync::ledger::{Blank, Ledger};

/// The intensity at a pixel, where exactly the pixels of the region are covered.
pub fn image_at(
    alloc: Global,
    kernels: &KernelSet,
    region: &Region,
    at: Pix,
) -> Result<i64, NoMemory>
    requires bounds { KeepsBounds kernels.now }
    requires within { All (IsRectWithin 1048000) region.now }
    requires few { length region.now ≤ 65536 }
    requires at { IsPixWithin 1048576 at }
    ensures intensity { IfOk result (λ n. n ≡ intensity kernels.now (cover region.now) at.x at.y) }
    ensures range { IfOk result (FitsSigned w64) }
{
    let tables = Tables::build(alloc, kernels)?;
    let lanes = lanes_at::<Brand>(alloc, &tables, region, at, Blank::new(1))?;
    let weights = weights_of(alloc, kernels)?;
    Ok(intensity(&lanes, &weights))
}

/// The amplitudes of all kernels at a pixel, in lanes: the ground, and what the corners of the region in the window round
/// the pixel add to it. The steps are counted for no one.
fn lanes_at<L: Ledger>(
    alloc: Global,
    tables: &Tables,
    region: &Region,
    at: Pix,
    blank: Blank,
) -> Result<Vec<i64>, NoMemory>
    requires within { All (IsRectWithin 1048000) region.now }
    requires few { length region.now ≤ 65536 }
    requires at { IsPixWithin 1048576 at }
    requires name { blank.name ≡ L.name }
    requires parts { blank.parts ≡ L.parts }
    requires some { 0 < blank.parts }
    ensures amplitudes { IfOk result (λ lanes. LanesAre tables.now (amplitude_of_lane tables.now (cover region.now) at.x at.y) lanes.items) }
    ensures small { IfOk result (λ lanes. AreLanes (lane_count tables.now) 34080768 lanes.items) }
{
    let corners = corners_round(alloc, region, at, tables.reach())?;
    let mut lanes = tables.ground().to_vec(alloc)?;
    let mut steps: Steps<L> = Steps::new(blank);
    add_corners(&mut lanes, tables, at, &corners, &mut steps);
    Ok(lanes)
}

/// The corners of what the region covers within the reach of a pixel.
fn corners_round(
    alloc: Global,
    region: &Region,
    at: Pix,
    reach: i32,
) -> Result<Vec<Corner>, NoMemory>
    requires within { All (IsRectWithin 1048000) region.now }
    requires few { length region.now ≤ 65536 }
    requires at { IsPixWithin 1048576 at }
    requires low { pos 0 ≤ℤ reach }
    requires near { reach ≤ℤ pos 64 }
    ensures each { IfOk result (λ corners. All (IsCornerInRange 1050000) corners.items) }
    ensures few { IfOk result (λ corners. length corners.items ≤ 1048576) }
    ensures near { IfOk result (λ corners. AddUpNear (unsigned_abs reach) corners.items (cover region.now) at.x at.y) }
{
    corners_of(alloc, region.rects(), window_round(at, reach))
}

/// The pixels within the reach of a pixel.
fn window_round(at: Pix, reach: i32) -> Rect
    requires at { IsPixWithin 1048576 at }
    requires low { pos 0 ≤ℤ reach }
    requires near { reach ≤ℤ pos 64 }
    ensures within { IsRectWithin 1050000 result }
    ensures shows { Shows result (unsigned_abs reach) at.x at.y }
{
    Rect {
        x0: at.x - reach,
        y0: at.y - reach,
        x1: at.x + reach + 1,
        y1: at.y + reach + 1,
    }
}

/// The weights of the kernels.
pub fn weights_of(alloc: Global, kernels: &KernelSet) -> Result<Vec<i64>, NoMemory>
    ensures { IfOk result (λ weights. weights.items ≡ weights_of kernels.now) }
{
    let weights = kernels
        .kernels
        .as_slice()
        .iter()
        .map(|kernel| i64::from(kernel.weight))
        .collect(alloc)?;
    Ok(weights)
}
