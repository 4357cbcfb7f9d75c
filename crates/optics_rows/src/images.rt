//! Images of regions from tables.

ghost use Rattle.std.specs.Prelude.{◌≡◌, ◌<◌, ◌≤◌, All, IfOk, length};
ghost use Rattle.opc_base.specs.Lanes.{AddUpNear, lane_count, weights_of};
ghost use Rattle.opc_base.specs.Optics.{KeepsBounds};
ghost use Rattle.opc_base.specs.Plane.{IsPixWithin, IsRectWithin, cover};
ghost use Rattle.lane_intensity.specs.Differences.{AreLanes, IsCornerInRange};

use corners::corners_of;
use lane_intensity::{add_corners, intensity};
use opc_base::{Corner, KernelSet, NoMemory, Pix, Rect, Region, Steps};
use prefix_tables::Tables;
use std::alloc::Global;
use std::marker::Brand;
use std::sync::ledger::{Blank, Ledger};

/// A window that has all places within the reach of each pixel of a layout.
const WHOLE: Rect = Rect {
    x0: -1_049_000,
    y0: -1_049_000,
    x1: 1_049_000,
    y1: 1_049_000,
};

/// The intensity at a pixel where exactly the pixels of the region are covered, from tables and all corners of the
/// region, however far they are.
pub fn image_from_tables(
    alloc: Global,
    set: &KernelSet,
    region: &Region,
    at: Pix,
) -> Result<i64, NoMemory>
    requires bounds { KeepsBounds set.now }
    requires within { All (IsRectWithin 1048000) region.now }
    requires few { length region.now ≤ 65536 }
    requires at { IsPixWithin 1048576 at }
{
    let tables = Tables::build(alloc, set)?;
    let lanes = lanes_at::<Brand>(alloc, &tables, region, at, Blank::new(1))?;
    Ok(intensity(&lanes, &weights_of(alloc, set)?))
}

/// The amplitudes at a pixel.
fn lanes_at<L: Ledger>(
    alloc: Global,
    tables: &Tables,
    region: &Region,
    at: Pix,
    blank: Blank,
) -> Result<Vec<i64>, NoMemory>
    requires bounds { KeepsBounds tables.now }
    requires within { All (IsRectWithin 1048000) region.now }
    requires few { length region.now ≤ 65536 }
    requires at { IsPixWithin 1048576 at }
    requires name { blank.name ≡ L.name }
    requires parts { blank.parts ≡ L.parts }
    requires some { 0 < blank.parts }
    ensures { IfOk result (λ lanes. AreLanes (lane_count tables.now) 34080768 lanes.items) }
{
    let corners = all_corners(alloc, tables, region, at)?;
    let mut lanes = tables.ground().to_vec(alloc)?;
    let mut steps: Steps<L> = Steps::new(blank);
    add_corners(&mut lanes, tables, at, &corners, &mut steps);
    Ok(lanes)
}

/// All corners of the region, which add up to it within the reach of the pixel.
fn all_corners(
    alloc: Global,
    tables: &Tables,
    region: &Region,
    at: Pix,
) -> Result<Vec<Corner>, NoMemory>
    requires bounds { KeepsBounds tables.now }
    requires within { All (IsRectWithin 1048000) region.now }
    requires few { length region.now ≤ 65536 }
    requires at { IsPixWithin 1048576 at }
    ensures each { IfOk result (λ corners. All (IsCornerInRange 1050000) corners.items) }
    ensures few { IfOk result (λ corners. length corners.items ≤ 1048576) }
    ensures near { IfOk result (λ corners. AddUpNear tables.now.reach corners.items (cover region.now) at.x at.y) }
{
    let corners = corners_of(alloc, region.rects(), WHOLE)?;
    Ok(corners)
}

fn weights_of(alloc: Global, set: &KernelSet) -> Result<Vec<i64>, NoMemory>
    ensures { IfOk result (λ weights. weights.items ≡ weights_of set.now) }
{
    let weights = set
        .kernels
        .as_slice()
        .iter()
        .map(|kernel| i64::from(kernel.weight))
        .collect(alloc)?;
    Ok(weights)
}
