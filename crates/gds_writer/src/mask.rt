//! The whole file.
ghost use Rattle.std.specs.Prelude.{◌≡◌, ◌≤◌, ◌+◌, ◌-◌, ◌*◌, ◌^◌, ◌%◌, min, pos, length, All, IfOk};
ghost use Rattle.opc_base.specs.Plane.{IsRectWithin, cover};
ghost use Rattle.opc_base.specs.Ranges.{IsBetween};
ghost use Rattle.gds_records.specs.Records.{records_from};
ghost use Rattle.gds_model.specs.Library.{IsLibraryOf};
ghost use Rattle.gds_writer.specs.Expansion.{ExpandsTo};
ghost use Rattle.gds_writer.specs.Faultless.{IsFaultless};
ghost use Rattle.gds_writer.specs.MaskLibrary.{mask_library};
ghost use Rattle.gds_writer.specs.MaskFile.{mask_file, mask_records, padded, standing};

use crate::boundary::{around, put_boundary};
use crate::opening::{frame_size, put_opening};
use gds_records::{Head, put_record};
use opc_base::{Bytes, NoMemory, OutPick, Region};
use std::alloc::Global;

/// The mask file of a region: the head of the layout, and one structure with a BOUNDARY for each canonical rectangle.
/// `grid` is the number of database units in a pixel. The memory of the file is taken once, before its first byte.
pub fn write_mask(
    alloc: Global,
    head: &Head,
    region: &Region,
    out: &OutPick,
    grid: i32,
) -> Result<Bytes, NoMemory>
    requires header { length head.now.header ≡ 2 }
    requires dates { length head.now.dates ≡ 24 }
    requires name_even { length head.now.name % 2 ≡ 0 }
    requires name_fits { length head.now.name ≤ 65530 }
    requires units { length head.now.units ≡ 16 }
    requires rects { All (IsRectWithin 1048128) region.now }
    requires grid { IsBetween (pos 1) (pos 1000) grid }
    ensures file { IfOk result (λ bytes. bytes ≡ mask_file head.now out.now grid region.now) }
    ensures records { IfOk result (λ bytes. records_from bytes 0 ≡ standing 0 (mask_records head.now out.now grid region.now)) }
    ensures library { IfOk result (λ bytes. IsLibraryOf bytes (mask_library head.now out.now grid region.now)) }
    ensures expands { IfOk result (λ bytes. ExpandsTo bytes out.now.name out.now.layer out.now.datatype grid (cover region.now)) }
    ensures faultless { IfOk result (λ bytes. IsFaultless bytes out.now.name out.now.layer out.now.datatype grid) }
{
    let size = file_size(head, region, out);
    let mut file = Bytes::from_vec(Vec::with_capacity(alloc, size)?);
    put_opening(alloc, &mut file, head, out)?;
    for rect in region.rects() {
        let corners = around(rect);
        put_boundary(alloc, &mut file, out, &corners, grid)?;
    }
    put_record(alloc, &mut file, 0x07, 0x00, &[])?;
    put_record(alloc, &mut file, 0x04, 0x00, &[])?;
    Ok(file)
}

/// How many bytes the file has: 64 for each rectangle, and what stands before and behind them.
fn file_size(head: &Head, region: &Region, out: &OutPick) -> usize
    requires name { length head.now.name ≤ 65530 }
    ensures { result ≡ min (98 + length head.now.name + length (padded out.now.name) + 64 * length region.now) (2 ^ 64 - 1) }
{
    let elements = region.rects().len().saturating_mul(64);
    elements.saturating_add(frame_size(head, out))
}
