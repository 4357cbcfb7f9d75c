//! Files of polygons.
ghost use Rattle.std.specs.Prelude.{◌≤◌, pos, All};
ghost use Rattle.opc_base.specs.Plane.{IsRectWithin};
ghost use Rattle.opc_base.specs.Ranges.{IsBetween};
ghost use Rattle.outline_model.specs.MaskRange.{mask_limit};

use geometry_rows::fault::RowFault;
use geometry_rows::written::{head, out_pick};
use mask_polygons::write_polygons;
use opc_base::{Bytes, Region};
use rect_union::first_touch;
use std::alloc::Global;

/// The file of a mask's polygons, unless the mask touches itself at a corner.
pub fn polygon_file(alloc: Global, region: &Region, grid: i32) -> Result<Bytes, RowFault>
    requires rects { All (IsRectWithin mask_limit) region.now }
    requires grid { IsBetween (pos 1) (pos 1000) grid }
{
    if first_touch(alloc, region.rects())?.is_some() {
        return Err(RowFault::BreaksRules);
    }
    let head = head(alloc)?;
    let out = out_pick(alloc, b"MASK")?;
    Ok(write_polygons(alloc, &head, region, &out, grid)?)
}
